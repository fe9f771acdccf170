//! What the bar of an event shows, and which later event ends it.
ghost use Rattle.std.specs.Prelude.{◌≡◌};
ghost use Rattle.dsql_timeline_picture.specs.Lanes.{conn_of};
ghost use Rattle.dsql_timeline_picture.specs.Kinds.{begins, class_of_entry, class_of_move, class_of_reply, class_of, owner_of, replies_to, serves, moves, ends_transaction, is_last, ends, width};

use dsql_history::{Entry, Event, Move, Reply};
use dsql_timeline_page::Class;

/// Returns the connection that a move concerns.
pub(crate) fn conn_of(step: &Move) -> u32
    ensures { result ≡ conn_of step.now }
{
    match step {
        Move::OpenStart { conn, .. }
        | Move::Lend { conn, .. }
        | Move::Back { conn }
        | Move::CloseStart { conn, .. }
        | Move::Gone { conn }
        | Move::Fell { conn, .. } => *conn,
    }
}

/// Returns whether the driver begins a transaction.
fn begins(entry: &Entry) -> bool
    ensures { result ≡ begins entry.now }
{
    entry.call.is_begin() && entry.answer.is_done()
}

/// Returns the class of a driver call, by its answer.
fn class_of_entry(entry: &Entry) -> Class
    ensures { result ≡ class_of_entry entry.now }
{
    if entry.answer.is_failure() || entry.answer.is_invalid() {
        Class::Fault
    } else if entry.answer.is_skip() {
        Class::Refusal
    } else if begins(entry) {
        Class::Transaction
    } else {
        Class::Done
    }
}

/// Returns the class of a move: the set to which the connection moves, or its end.
fn class_of_move(step: &Move) -> Class
    ensures { result ≡ class_of_move step.now }
{
    match step {
        Move::OpenStart { .. } => Class::Opening,
        Move::Lend { .. } => Class::Lent,
        Move::Back { .. } => Class::Idle,
        Move::CloseStart { .. } => Class::Closing,
        Move::Gone { .. } => Class::Gone,
        Move::Fell { .. } => Class::Refusal,
    }
}

fn class_of_reply(reply: &Reply) -> Class
    ensures { result ≡ class_of_reply reply.now }
{
    match reply {
        Reply::Ok
        | Reply::Result { .. }
        | Reply::Rows(_)
        | Reply::Truth(_)
        | Reply::Cells(_)
        | Reply::Stats(_) => Class::Done,
        _ => Class::Fault,
    }
}

/// Returns what the bar of an event shows.
pub(crate) fn class_of(event: &Event) -> Class
    ensures { result ≡ class_of event.now }
{
    match event {
        Event::Run { .. } | Event::Ended => Class::Edge,
        Event::Entered { .. } => Class::Call,
        Event::Heard(entry) => class_of_entry(entry),
        Event::Pool(step) => class_of_move(step),
        Event::Waits(_) => Class::Waiting,
        Event::Ticked(_) => Class::Moment,
        Event::SetLimit(_, _) => Class::Limit,
        Event::Replied { reply, .. } => class_of_reply(reply),
    }
}

/// Returns the number of the call or of the owner, which decides the colour of a bar, or 0.
pub(crate) fn owner_of(event: &Event) -> u32
    ensures { result ≡ owner_of event.now }
{
    match event {
        Event::Entered { n, .. } => *n,
        Event::Pool(Move::Lend { owner, .. }) => owner.number(),
        _ => 0,
    }
}

/// Returns whether the event replies to this call.
fn replies_to(call: u32, event: &Event) -> bool
    ensures { result ≡ replies_to call event.now }
{
    match event {
        Event::Replied { n, .. } => *n == call,
        _ => false,
    }
}

/// Returns whether this call waits no more: it is lent a connection, one is opened for it, or it has its reply.
fn serves(n: u32, event: &Event) -> bool
    ensures { result ≡ serves n event.now }
{
    match event {
        Event::Pool(Move::Lend { call, .. }) => *call == n,
        Event::Pool(Move::OpenStart { call, .. }) => *call == n,
        _ => replies_to(n, event),
    }
}

/// Returns whether the event moves this connection.
fn moves(conn: u32, event: &Event) -> bool
    ensures { result ≡ moves conn event.now }
{
    match event {
        Event::Pool(step) => conn_of(step) == conn,
        _ => false,
    }
}

/// Returns whether a transaction on this connection ends: by a commit or a rollback, or because the connection moves.
fn ends_transaction(conn: u32, event: &Event) -> bool
    ensures { result ≡ ends_transaction conn event.now }
{
    match event {
        Event::Heard(entry) => entry.conn == conn && entry.call.is_ending(),
        _ => moves(conn, event),
    }
}

/// Returns whether a connection isn't there after the move.
fn is_last(step: &Move) -> bool
    ensures { result ≡ is_last step.now }
{
    matches!(step, Move::Gone { .. } | Move::Fell { .. })
}

/// Returns whether the bar of an event ends at a later one. A bar that shows a moment ends at the next event.
#[tactic(auto, unfolding(crate::specs::Kinds::ends))]
fn ends(event: &Event, later: &Event) -> bool
    ensures { result ≡ ends event.now later.now }
{
    match event {
        Event::Entered { n, .. } => replies_to(*n, later),
        Event::Heard(entry) => !begins(entry) || ends_transaction(entry.conn, later),
        Event::Pool(step) => is_last(step) || moves(conn_of(step), later),
        Event::Waits(n) => serves(*n, later),
        _ => true,
    }
}

/// Returns how many columns the bar of an event is wide, if these events follow it. A bar that nothing ends goes to
/// the last column.
pub(crate) fn width(event: &Event, later: &[Event]) -> usize
    ensures { result ≡ width event.now later.now }
{
    let passed = later.iter().position(|other| ends(event, other));
    passed.unwrap_or(later.len()) + 1
}

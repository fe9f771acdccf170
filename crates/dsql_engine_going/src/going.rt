//! A call goes on as far as it can by itself.
ghost use Rattle.std.specs.Prelude.{◌≡◌, ◌<◌, ◌+◌, Some, is_some, true, false};
ghost use Rattle.dsql_engine_desk.specs.Desk.{trimmed, past, Stands};
ghost use Rattle.dsql_engine_exchanged.specs.Filled.{filled};
ghost use Rattle.dsql_laws_calls.specs.Bounds.{most_given_back};
ghost use Rattle.dsql_laws_steps.specs.Groups.{after_reply, asked_so, gone_on, unless_resting};
ghost use Rattle.dsql_engine_going.specs.Reaching.{CanPay, GivesUp, IsDue, Reaches, MayGoOn, HasGoneOn};
ghost use Rattle.dsql_engine_going.specs.Stepping.{most_going_on};
ghost use Rattle.dsql_laws_calls.specs.history.Readers.Calls.{reply_due, rests};
ghost use Rattle.dsql_laws_calls.specs.history.Readers.Unfinished.{is_unfinished};
ghost use Rattle.dsql_laws_calls.specs.history.Rules.Flights.{is_in_flight};
ghost use Rattle.dsql_laws_calls.specs.history.Rules.Asking.{may_ask, ask_outcome};
ghost use Rattle.dsql_laws_calls.specs.history.Rules.Sent.{asked_by};
ghost use Rattle.dsql_laws_calls.specs.history.Rules.Line.{due_for};
ghost use Rattle.dsql_laws_calls.specs.history.Rules.Settled.{is_settled_but};

use crate::next::{Next, Why};
use crate::permits::leave_for;
use dsql_engine_desk::{BareCall, Desk};
use dsql_engine_pooling::Flights;
use dsql_laws_calls::{AskFault, Asked, Fate, Reply};

/// Lets a call without a reply go on: it sends what is due, replies what is settled, asks for a connection, or
/// waits on.
pub fn go_on(desk: &mut Desk, flights: &mut Flights, call: u32) -> Next
    requires pays { CanPay desk.old most_going_on }
    requires may { MayGoOn (past desk.old) flights.old call }
    ensures reaches { Reaches desk.new (gone_on call (past desk.old)) }
    ensures trimmed { trimmed desk.new ≡ trimmed desk.old }
    ensures goes { HasGoneOn (past desk.new) flights.old.flights flights.new.flights call result }
{
    let due = desk.due(call);
    go_on_with(desk, flights, call, due)
}

/// Lets a call without a reply go on as `go_on` does, if this is the driver call that is due for the call.
pub fn go_on_with(desk: &mut Desk, flights: &mut Flights, call: u32, due: Option<BareCall>) -> Next
    requires pays { CanPay desk.old most_going_on }
    requires may { MayGoOn (past desk.old) flights.old call }
    requires due { IsDue (past desk.old) call due }
    ensures reaches { Reaches desk.new (gone_on call (past desk.old)) }
    ensures trimmed { trimmed desk.new ≡ trimmed desk.old }
    ensures goes { HasGoneOn (past desk.new) flights.old.flights flights.new.flights call result }
{
    if let Some(due) = due {
        return send(desk, flights, call, due);
    }
    if desk.is_settled(call) {
        return reply(desk, call);
    }
    if desk.may_ask(call) {
        return ask(desk, flights, call);
    }
    if desk.waits(call) {
        Next::Blocked(Why::Connection)
    } else {
        Next::Blocked(Why::Opening)
    }
}

/// Sends the driver call that is due for a call, unless another's is under way on its connection.
fn send(desk: &Desk, flights: &mut Flights, call: u32, due: BareCall) -> Next
    requires stands { Stands desk.now }
    requires unfinished { is_unfinished (past desk.now) call ≡ true }
    requires due { Some (filled (asked_by (past desk.now) call) due) ≡ due_for (past desk.now) call }
    requires parked { is_in_flight call flights.old.flights ≡ false }
    requires spare { 0 < flights.old.spare }
    ensures { HasGoneOn (past desk.now) flights.old.flights flights.new.flights call result }
{
    let conn = desk.site(call);
    if flights.is_taken(call, conn) {
        return Next::Blocked(Why::Turn(conn));
    }
    flights.begin(call, conn);
    Next::Send(leave_for(desk, conn, call, due))
}

/// Records the settled reply of a call. Gives back first the connection with which the call rests, if it does.
fn reply(desk: &mut Desk, call: u32) -> Next
    requires pays { CanPay desk.old (most_given_back + 1) }
    requires settled { is_settled_but call (past desk.old) ≡ true }
    requires unfinished { is_unfinished (past desk.old) call ≡ true }
    requires silent { is_some (due_for (past desk.old) call) ≡ false }
    requires due { is_some (reply_due (past desk.old) call) ≡ true }
    ensures reaches { Reaches desk.new (after_reply call (reply_due (past desk.old) call) (past desk.old)) }
    ensures trimmed { trimmed desk.new ≡ trimmed desk.old }
    ensures finished { is_unfinished (past desk.new) call ≡ false }
    ensures next { result ≡ Next.Reply call }
{
    give_up(desk, call);
    desk.tell_due(call);
    Next::Reply(call)
}

/// Gives back the connection with which a call rests, if it does.
fn give_up(desk: &mut Desk, call: u32)
    requires pays { CanPay desk.old (most_given_back + 1) }
    requires settled { is_settled_but call (past desk.old) ≡ true }
    requires unfinished { is_unfinished (past desk.old) call ≡ true }
    requires silent { is_some (due_for (past desk.old) call) ≡ false }
    requires due { is_some (reply_due (past desk.old) call) ≡ true }
    ensures { GivesUp desk.old desk.new call }
{
    if let Some(conn) = desk.rests_with(call) {
        desk.give_back(conn, Fate::Good);
    }
}

/// Lets a call go on to which a connection was lent just before. It sends what is due there, or replies if it
/// rests with the connection.
fn go_on_lent(desk: &mut Desk, flights: &mut Flights, call: u32) -> Next
    requires pays { CanPay desk.old (most_given_back + 1) }
    requires may { MayGoOn (past desk.old) flights.old call }
    requires rests { is_some (due_for (past desk.old) call) ≡ false → rests (past desk.old) call ≡ true }
    ensures reaches { Reaches desk.new (unless_resting call (past desk.old)) }
    ensures trimmed { trimmed desk.new ≡ trimmed desk.old }
    ensures goes { HasGoneOn (past desk.new) flights.old.flights flights.new.flights call result }
{
    match desk.due(call) {
        Some(due) => send(desk, flights, call, due),
        None => reply(desk, call),
    }
}

/// Lets a call ask for a connection.
fn ask(desk: &mut Desk, flights: &mut Flights, call: u32) -> Next
    requires pays { CanPay desk.old most_going_on }
    requires may { MayGoOn (past desk.old) flights.old call }
    requires asks { may_ask (past desk.old) call ≡ true }
    ensures reaches { Reaches desk.new (asked_so call (ask_outcome (past desk.old) call) (past desk.old)) }
    ensures trimmed { trimmed desk.new ≡ trimmed desk.old }
    ensures goes { HasGoneOn (past desk.new) flights.old.flights flights.new.flights call result }
{
    match desk.ask(call) {
        Ok(Asked::Lent { .. }) => go_on_lent(desk, flights, call),
        Ok(Asked::Opening(_)) => Next::Blocked(Why::Opening),
        Ok(Asked::Queued) => Next::Blocked(Why::Connection),
        Ok(Asked::Closed) => unreachable!(),
        Err(AskFault::TooMany) => {
            desk.tell(call, Reply::TooMany);
            Next::Reply(call)
        }
        Err(AskFault::Memory) => unreachable!(),
    }
}

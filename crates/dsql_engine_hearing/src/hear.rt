//! The step that takes in a driver's answer.
ghost use Rattle.std.specs.Prelude.{◌≡◌, ◌∷◌, ◌+◌, ◌≤◌, ◌<◌, true, false, length, Some, None};
ghost use Rattle.dsql_engine_going.specs.pool.Places.{is_lent};
ghost use Rattle.dsql_engine_going.specs.works.Limits.{most_within_a_step};
ghost use Rattle.dsql_engine_going.specs.history.declared.event.Event.TheVariants.{Heard};
ghost use Rattle.dsql_engine_going.specs.history.Readers.Owed.{fate};
ghost use Rattle.dsql_engine_going.specs.history.Readers.Pool.{place};
ghost use Rattle.dsql_engine_going.specs.history.Rules.Flights.{is_in_flight, without_flight};
ghost use Rattle.dsql_engine_going.specs.history.Rules.Line.{is_used};
ghost use Rattle.dsql_engine_going.specs.laws.Leaving.{MayLeave};
ghost use Rattle.dsql_engine_going.specs.laws_calls.Bounds.{most_given_back};
ghost use Rattle.dsql_engine_going.specs.desk.Appending.{DecidesNow};
ghost use Rattle.dsql_engine_going.specs.desk.Desk.{trimmed, past, Stands};
ghost use Rattle.dsql_engine_going.specs.desk.Next.{has_line};
ghost use Rattle.dsql_engine_going.specs.history.Readers.Works.{work};
ghost use Rattle.dsql_engine_going.specs.Reaching.{CanPay, IsDue, Reaches};
ghost use Rattle.dsql_engine_going.specs.Stepping.{events_of_a_step, MayStep, GoesOnOrRests};
ghost use Rattle.dsql_engine_hearing.specs.Hearing.{IsWelcome, MayHear, LetsGo, StaysDue, TellsOfIt, lent_to};
ghost use Rattle.dsql_engine_going.specs.laws_steps.Groups.{after_heard, gone_on, let_go, with_owed};

use dsql_engine_going::{
    BareCall, Desk, DriverAnswer, Entry, Fate, Flights, Next, Place, Reply, fate_of, go_on_with,
};

/// What the step for an answer needs, with the memory for it.
#[derive(Drop)]
pub struct Hearing {
    /// A copy of the answer.
    pub copy: DriverAnswer,
    /// What the answer to a Query or a Next decides.
    pub reply: Option<Reply>,
}

/// Takes in a driver's answer, for which all is ready.
pub fn hear_answer(desk: &mut Desk, flights: &mut Flights, entry: Entry, ready: Hearing) -> Next
    requires pays { CanPay desk.old events_of_a_step }
    requires few { length (past desk.old) + events_of_a_step ≤ most_within_a_step }
    requires may { MayStep (past desk.old) flights.old }
    requires welcome { IsWelcome (past desk.old) entry }
    requires decides { DecidesNow (past desk.old) entry ready.copy ready.reply }
    ensures reaches { Reaches desk.new (after_heard (past desk.old) entry) }
    ensures trimmed { trimmed desk.new ≡ trimmed desk.old }
    ensures goes { GoesOnOrRests (past desk.new)
        (without_flight entry.call_no flights.old.flights) flights.new.flights entry.call_no result }
{
    flights.land(entry.call_no);
    match lent_to(desk.place(entry.conn)) {
        Some(borrower) => hear_lent(desk, flights, borrower, entry, ready),
        None => {
            hear_house(desk, entry, ready);
            Next::Quiet
        }
    }
}

/// Takes in the answer to a driver call that opens a connection or closes it.
fn hear_house(desk: &mut Desk, entry: Entry, ready: Hearing)
    requires pays { CanPay desk.old events_of_a_step }
    requires may { MayHear (past desk.old) entry ready }
    requires house { lent_to (place (past desk.old) entry.conn) ≡ None }
    ensures reaches { Reaches desk.new (with_owed (Heard entry ∷ past desk.old)) }
    ensures trimmed { trimmed desk.new ≡ trimmed desk.old }
{
    desk.hear(entry, ready.copy, ready.reply);
}

/// Takes in the answer to a driver call on a connection that is lent to a call or its transaction.
fn hear_lent(
    desk: &mut Desk,
    flights: &mut Flights,
    borrower: u32,
    entry: Entry,
    ready: Hearing,
) -> Next
    requires pays { CanPay desk.old events_of_a_step }
    requires few { length (past desk.old) + events_of_a_step ≤ most_within_a_step }
    requires may { MayHear (past desk.old) entry ready }
    requires lent { lent_to (place (past desk.old) entry.conn) ≡ Some borrower }
    requires parked { is_in_flight entry.call_no flights.old.flights ≡ false }
    requires spare { 0 < flights.old.spare }
    ensures reaches { Reaches desk.new
        (gone_on entry.call_no (let_go entry.conn borrower (Heard entry ∷ past desk.old))) }
    ensures trimmed { trimmed desk.new ≡ trimmed desk.old }
    ensures goes { GoesOnOrRests (past desk.new) flights.old.flights flights.new.flights entry.call_no result }
{
    let Hearing { copy, reply } = ready;
    let conn = entry.conn;
    let call = entry.call_no;
    let newest = fate_of(&entry.answer);
    desk.hear(entry, copy, reply);
    let due = due_or_let_go(desk, conn, borrower, call, newest);
    if call == 0 {
        Next::Quiet
    } else {
        go_on_with(desk, flights, call, due)
    }
}

/// Returns the driver call that is due for a call on a lent connection. If none is due, gives the connection back
/// unless it is still in use. Call 0 is the layer, for which none is due.
fn due_or_let_go(
    desk: &mut Desk,
    conn: u32,
    borrower: u32,
    call: u32,
    newest: Fate,
) -> Option<BareCall>
    requires pays { CanPay desk.old most_given_back }
    requires lent { is_lent (place (past desk.old) conn) ≡ true }
    requires line { has_line (work (past desk.old) borrower) ≡ true }
    requires leaves { is_used (past desk.old) borrower ≡ false → MayLeave (past desk.old) conn }
    requires newest { TellsOfIt (past desk.old) conn newest }
    requires stays { StaysDue (past desk.old) conn borrower call }
    ensures leaves { LetsGo desk.old desk.new conn borrower }
    ensures due { IsDue (past desk.new) call result }
{
    match desk.due(call) {
        Some(due) => Some(due),
        None => {
            let_go(desk, conn, borrower, newest);
            None
        }
    }
}

/// Gives back a lent connection if it isn't in use any more. `newest` is the fate that its newest answer gives
/// it.
fn let_go(desk: &mut Desk, conn: u32, borrower: u32, newest: Fate)
    requires pays { CanPay desk.old most_given_back }
    requires lent { is_lent (place (past desk.old) conn) ≡ true }
    requires line { has_line (work (past desk.old) borrower) ≡ true }
    requires leaves { is_used (past desk.old) borrower ≡ false → MayLeave (past desk.old) conn }
    requires newest { TellsOfIt (past desk.old) conn newest }
    ensures { LetsGo desk.old desk.new conn borrower }
{
    if !desk.is_used(borrower) {
        let fate = fate_now(desk, conn, newest);
        desk.give_back(conn, fate);
    }
}

/// Returns the fate of a lent connection. A call in a transaction goes on there after a Bad, so the newest
/// answer alone doesn't decide it.
fn fate_now(desk: &Desk, conn: u32, newest: Fate) -> Fate
    requires stands { Stands desk.now }
    requires lent { is_lent (place (past desk.now) conn) ≡ true }
    requires newest { TellsOfIt (past desk.now) conn newest }
    ensures { result ≡ fate (past desk.now) conn }
{
    if desk.is_known_bad(conn) {
        Fate::Bad
    } else {
        newest
    }
}

/// Returns the call to which, or to whose transaction, a connection in this place is lent. Returns `None` if it
/// is lent to neither.
fn lent_to(place: Option<Place>) -> Option<u32>
    ensures { result ≡ lent_to place }
{
    match place {
        Some(Place::Lent(_, owner)) if !owner.is_house() => Some(owner.number()),
        _ => None,
    }
}

//! The step in which a client's call enters.
ghost use Rattle.std.specs.Prelude.{◌≡◌, ◌≤◌, ◌+◌, false, true, length};
ghost use Rattle.dsql_engine_desk.specs.Appending.{Appends, MayAppend};
ghost use Rattle.dsql_engine_desk.specs.Desk.{trimmed, past};
ghost use Rattle.dsql_engine_effects.specs.Starts.{Starts};
ghost use Rattle.dsql_engine_going.specs.Reaching.{CanPay, HasGoneOn, Reaches};
ghost use Rattle.dsql_engine_going.specs.Stepping.{events_of_a_step, MayStep};
ghost use Rattle.dsql_laws_calls.specs.history.Readers.Calls.{is_busy, next_call};
ghost use Rattle.dsql_laws_calls.specs.history.Readers.Labels.{names_fit};
ghost use Rattle.dsql_laws_calls.specs.history.Rules.Settled.{Settled};
ghost use Rattle.dsql_laws_calls.specs.history.declared.event.Event.TheVariants.{Entered};
ghost use Rattle.dsql_laws_calls.specs.works.Limits.{most_within_a_step};
ghost use Rattle.dsql_laws_steps.specs.Groups.{after_enter};

use crate::going::go_on;
use crate::next::Next;
use dsql_engine_desk::{CallStart, Desk};
use dsql_engine_pooling::Flights;
use dsql_laws_calls::Op;

/// Enters a call, of which the desk records `start`, and lets it go on.
pub fn enter_call(
    desk: &mut Desk,
    flights: &mut Flights,
    client: u8,
    op: Op,
    start: CallStart,
) -> Next
    requires pays { CanPay desk.old events_of_a_step }
    requires few { length (past desk.old) + events_of_a_step ≤ most_within_a_step }
    requires may { MayStep (past desk.old) flights.old }
    requires free { is_busy client (past desk.old) ≡ false }
    requires names { names_fit (past desk.old) op ≡ true }
    requires starts { Starts (past desk.old) op start }
    ensures reaches { Reaches desk.new (after_enter (past desk.old) client op) }
    ensures trimmed { trimmed desk.new ≡ trimmed desk.old }
    ensures goes { HasGoneOn (past desk.new) flights.old.flights flights.new.flights
        (next_call (past desk.old)) result }
{
    let call = desk.next_call();
    note_entry(desk, call, client, op, start);
    go_on(desk, flights, call)
}

/// Enters a call and appends the moves that this makes due.
fn note_entry(desk: &mut Desk, call: u32, client: u8, op: Op, start: CallStart)
    requires may { MayAppend desk.old (Entered client call op) }
    requires settled { Settled (past desk.old) }
    requires starts { Starts (past desk.old) op start }
    ensures { Appends desk.old desk.new (Entered client call op) }
{
    match op {
        Op::DbClose => desk.close(call, client, start),
        other => desk.enter(call, client, other, start),
    }
}

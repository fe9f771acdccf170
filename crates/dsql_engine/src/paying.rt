//! The memory of a step.
ghost use Rattle.std.specs.Prelude.{◌≡◌, ◌<◌, IfOk, OnOk};
ghost use Rattle.dsql_engine_hearing.specs.desk.Appending.{DecidesNow};
ghost use Rattle.dsql_engine_hearing.specs.desk.Desk.{trimmed, past, Stands};
ghost use Rattle.dsql_engine_hearing.specs.going.Stepping.{events_of_a_step};

use dsql_engine_hearing::{Desk, Flights, Hearing, MOST_OPEN, NoRoom};
use dsql_wire::Heard;
use std::alloc::Global;

/// The most events that a step appends: as many moves as openings and closings may become due at once, and
/// seven more. The seven include the step's first event, the moves of connections that are given back, and the
/// reply.
const EVENTS_OF_A_STEP: u32 = 2 * MOST_OPEN + 7;

/// Takes the memory for the events of a step, and for a driver call that begins in it.
pub fn pay(desk: &mut Desk, flights: &mut Flights) -> Result<(), NoRoom>
    requires { Stands desk.old }
    ensures stands { Stands desk.new }
    ensures past { past desk.new ≡ past desk.old }
    ensures trimmed { trimmed desk.new ≡ trimmed desk.old }
    ensures paid { OnOk result (desk.new.paid ≡ events_of_a_step) }
    ensures flights { flights.new.flights ≡ flights.old.flights }
    ensures spare { OnOk result (0 < flights.new.spare) }
{
    desk.pay(EVENTS_OF_A_STEP)?;
    flights.reserve(1)?;
    Ok(())
}

/// Prepares everything that the step for this answer needs, and takes its memory. Fails with `NoRoom` if there
/// is none.
pub fn prepare(
    desk: &mut Desk,
    flights: &mut Flights,
    alloc: Global,
    heard: &mut Heard,
) -> Result<Hearing, NoRoom>
    requires { Stands desk.old }
    ensures stands { Stands desk.new }
    ensures past { past desk.new ≡ past desk.old }
    ensures trimmed { trimmed desk.new ≡ trimmed desk.old }
    ensures paid { OnOk result (desk.new.paid ≡ events_of_a_step) }
    ensures flights { flights.new.flights ≡ flights.old.flights }
    ensures spare { OnOk result (0 < flights.new.spare) }
    ensures heard { heard.new ≡ heard.old }
    ensures decides { IfOk result (λ ready. DecidesNow (past desk.old) heard.old ready.copy ready.reply) }
{
    let reply = desk.reply_decided(alloc, heard.entry())?;
    pay(desk, flights)?;
    let copy = heard.take_second()?;
    Ok(Hearing { copy, reply })
}

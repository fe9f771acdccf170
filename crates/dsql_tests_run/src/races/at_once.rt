//! Driver calls that have to be under way at once, for the race to go on.

use crate::outcome::race_over;
use crate::races::meeting::{Meeting, MeetingFleet};
use dsql_driver::{ListClock, OpenGate};
use dsql_mem::MemFleet;
use dsql_value::Memory;
use std::alloc::Global;
use std::test::Fail;

const TWO: &str = "maxopen 2
c1 exec db [\"SET a 1\"]
c2 exec db [\"SET b 2\"]
";

/// The same, with connections that live for a nanosecond.
const TWO_WITH_SHORT_LIVES: &str = "maxlife 1
maxopen 2
c1 exec db [\"SET a 1\"]
c2 exec db [\"SET b 2\"]
";

/// Returns a clock that shows one second after another.
fn clock_of_seconds(alloc: Global) -> Result<ListClock, Memory> {
    let mut moments = Vec::new(alloc);
    for second in 1..=100 {
        moments.push(second * 1_000_000_000)?;
    }
    Ok(ListClock::new(moments))
}

#[test]
fn two_clients_at_once(rt: HostRuntime) -> Result<(), Fail> {
    let meeting = Meeting::new();
    let mut fleet = MemFleet::new(rt.clone()?)?;
    let mut clock = ListClock::new(Vec::new(rt.alloc()));
    let ran = race_over(&rt, TWO, &mut fleet, &mut clock, &meeting)?;
    assert!(rt; ran.is_over());
    assert!(rt; meeting.took_place());
    Ok(())
}

#[test]
fn two_wires_at_once(rt: HostRuntime) -> Result<(), Fail> {
    let meeting = Meeting::new();
    let mut fleet = MeetingFleet {
        fleet: MemFleet::new(rt.clone()?)?,
        meeting: &meeting,
    };
    let mut clock = ListClock::new(Vec::new(rt.alloc()));
    let ran = race_over(&rt, TWO, &mut fleet, &mut clock, &OpenGate)?;
    assert!(rt; ran.is_over());
    assert!(rt; meeting.took_place());
    Ok(())
}

/// The house looks at the clock before it opens the second connection, and the first one is given back after that.
#[test]
fn a_race_closes_a_connection_past_its_lifetime(rt: HostRuntime) -> Result<(), Fail> {
    let meeting = Meeting::new();
    let mut fleet = MeetingFleet {
        fleet: MemFleet::new(rt.clone()?)?,
        meeting: &meeting,
    };
    let mut clock = clock_of_seconds(rt.alloc())?;
    let ran = race_over(&rt, TWO_WITH_SHORT_LIVES, &mut fleet, &mut clock, &OpenGate)?;
    assert!(rt; ran.is_over());
    assert!(rt; meeting.took_place());
    assert!(rt; ran.report().contains("[\"tick\",1000000000]\n"));
    assert!(rt; ran.report().contains("[\"close\",1,\"lifetime\"]\n"));
    Ok(())
}

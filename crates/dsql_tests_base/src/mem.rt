//! Tests of the driver in memory: in one session, and in a thread.

use dsql_driver::{DriverAnswer, DriverCall, Fleet, Input, Level, Wire};
use dsql_mem::{MemFleet, MemSession, Store, apply};
use dsql_value::{Items, Memory, Txt};
use std::alloc::Global;
use std::test::Fail;
use std::thread;

/// Returns the driver call that executes a text without parameters.
pub(crate) fn exec(alloc: Global, text: &str) -> Result<DriverCall, Memory> {
    let text = Txt::copy_of(alloc, text)?;
    Ok(DriverCall::Exec(Input::Text(text), Items::none(alloc)))
}

const BEGIN: DriverCall = DriverCall::Begin {
    level: Level::Default,
    read_only: false,
};

/// Carries out a driver call, and returns whether it succeeds.
fn goes(alloc: Global, store: &mut Store, session: &mut MemSession, call: &DriverCall) -> bool {
    let answered = apply(alloc, store, session, call);
    matches!(
        answered.answer,
        DriverAnswer::Done | DriverAnswer::Result { .. }
    )
}

#[test]
fn a_rollback_finds_memory(rt: HostRuntime) -> Result<(), Fail> {
    let alloc = rt.alloc();
    let mut store = Store::new(alloc);
    let mut session = MemSession::new(alloc);
    let set = exec(alloc, "SET a 1")?;
    assert!(rt; goes(alloc, &mut store, &mut session, &BEGIN));
    assert!(rt; goes(alloc, &mut store, &mut session, &set));
    assert!(rt; goes(alloc, &mut store, &mut session, &DriverCall::Rollback));
    Ok(())
}

#[test]
fn a_wire_works_in_a_thread(rt: HostRuntime) -> Result<(), Fail> {
    let mut fleet = MemFleet::new(rt.clone()?)?;
    let mut wire = fleet.connect(1)?;
    let child = thread::spawn(&rt, move || wire.call(&DriverCall::Commit))?;
    let answered = child.join(&rt);
    assert!(rt; matches!(answered.answer, DriverAnswer::Fail(_)));
    Ok(())
}

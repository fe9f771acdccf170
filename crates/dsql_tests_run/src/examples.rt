//! The examples at the heads of dsql_engine and dsql_run.

use crate::driver::ToldFleet;
use crate::runs::REPORT_OF_TWO;
use dsql_driver::{Fleet, SliceSource, VecSink};
use dsql_engine::{Engine, Next, NoRoom, Op, Why};
use dsql_run::play;
use std::alloc::Global;
use std::test::Fail;

/// Is true if the first call can't move while the layer opens a connection for it.
fn waits_for_a_connection<F: Fleet>(alloc: Global, fleet: &F) -> Result<bool, NoRoom> {
    let mut engine = Engine::new(alloc, 1, fleet.caps())?;
    let next = engine.enter(1, Op::Ping)?;
    let is_blocked = matches!(next, Next::Blocked(Why::Opening));

    // The run began, the call entered, and the pool began to open a connection.
    Ok(is_blocked && engine.history().len() == 3)
}

#[test]
fn a_call_has_a_connection_opened(rt: HostRuntime) -> Result<(), Fail> {
    let fleet = ToldFleet::new(rt.alloc(), "");
    assert!(rt; waits_for_a_connection(rt.alloc(), &fleet)?);
    Ok(())
}

/// Is true if a script of two lines is played to its end and its report begins with the driver's abilities.
fn plays_two_lines<F: Fleet>(alloc: Global, fleet: &mut F) -> bool {
    let script = "c1 exec db [\"SET a 1\"]\nc1 exec db [\"SET a 2\"]\n";
    let mut input = SliceSource::new(script.as_bytes(), 4096, &[]);
    let mut report = VecSink::new(alloc, 4096, Vec::new(alloc));
    let played = play(alloc, &mut input, &mut report, fleet);
    played.is_ok() && report.bytes().starts_with(b"[\"run\",1,[\"fast_exec\",")
}

#[test]
fn a_script_is_played(rt: HostRuntime) {
    let mut fleet = ToldFleet::new(rt.alloc(), REPORT_OF_TWO);
    assert!(rt; plays_two_lines(rt.alloc(), &mut fleet));
}

//! The result of a run.

use crate::driver::ToldFleet;
use dsql_driver::{Clock, Fleet, Gate, ListClock, OpenGate, SliceSource, Source, VecSink};
use dsql_run::sqlrun;
use dsql_value::{Memory, Txt};
use std::alloc::Global;
use std::str;
use std::sync::Wait;
use std::thread::Threads;

/// The result of a run: its status, its notes and its report.
#[derive(Drop)]
pub(super) struct Ran {
    status: u8,
    notes: VecSink,
    report: VecSink,
}

impl Ran {
    /// Is true if the run ended with this status and wrote exactly this.
    pub(super) fn is(&self, status: u8, notes: &str, report: &str) -> bool {
        self.has(status, notes) && self.report.bytes() == report.as_bytes()
    }

    /// Is true if the run stopped for want of memory and its report is a beginning of this one.
    pub(super) fn lacked_memory(&self, report: &str) -> bool {
        self.has(5, "sqlrun: out of memory\n") && report.as_bytes().starts_with(self.report.bytes())
    }

    /// Is true if the run came to its end and noted nothing.
    pub(super) fn is_over(&self) -> bool {
        self.has(0, "")
    }

    /// Returns the report, or nothing if it isn't UTF-8.
    pub(super) fn report(&self) -> &str {
        str::from_utf8(self.report.bytes()).unwrap_or("")
    }

    fn has(&self, status: u8, notes: &str) -> bool {
        self.status == status && self.notes.bytes() == notes.as_bytes()
    }
}

fn words_of(alloc: Global, words: &[&str]) -> Result<Vec<Txt>, Memory> {
    let mut called = Vec::new(alloc);
    for word in words {
        called.push(Txt::copy_of(alloc, word)?)?;
    }
    Ok(called)
}

/// Runs the program over these streams and this driver.
pub(super) fn run_over<S: Source, F: Fleet, R: AllocGlobal + Threads + Wait + Sync>(
    rt: &R,
    words: &[&str],
    input: &mut S,
    mut report: VecSink,
    mut notes: VecSink,
    fleet: &mut F,
) -> Result<Ran, Memory> {
    let alloc = rt.alloc();
    let called = words_of(alloc, words)?;
    let mut clock = ListClock::new(Vec::new(alloc));
    let status = sqlrun(
        rt,
        alloc,
        &called,
        input,
        &mut report,
        &mut notes,
        fleet,
        &mut clock,
        &OpenGate,
    );
    Ok(Ran {
        status,
        notes,
        report,
    })
}

/// Races a script over streams that don't fail.
pub(super) fn race_over<F: Fleet, C: Clock, G: Gate, R: AllocGlobal + Threads + Wait + Sync>(
    rt: &R,
    script: &str,
    fleet: &mut F,
    clock: &mut C,
    gate: &G,
) -> Result<Ran, Memory> {
    let alloc = rt.alloc();
    let called = words_of(alloc, &["race"])?;
    let mut input = SliceSource::new(script.as_bytes(), 4096, &[]);
    let mut report = VecSink::new(alloc, 4096, Vec::new(alloc));
    let mut notes = VecSink::new(alloc, 4096, Vec::new(alloc));
    let status = sqlrun(
        rt,
        alloc,
        &called,
        &mut input,
        &mut report,
        &mut notes,
        fleet,
        clock,
        gate,
    );
    Ok(Ran {
        status,
        notes,
        report,
    })
}

/// Plays or races a script, as the word says, over streams that don't fail and a driver that answers as a report says.
pub(super) fn run_as_told<R: AllocGlobal + Threads + Wait + Sync>(
    rt: &R,
    word: &str,
    script: &str,
    told: &str,
) -> Result<Ran, Memory> {
    let alloc = rt.alloc();
    let mut fleet = ToldFleet::new(alloc, told);
    let mut input = SliceSource::new(script.as_bytes(), 4096, &[]);
    let report = VecSink::new(alloc, 4096, Vec::new(alloc));
    let notes = VecSink::new(alloc, 4096, Vec::new(alloc));
    run_over(rt, &[word], &mut input, report, notes, &mut fleet)
}

//! The program `timeline`. It reads the report of a run from standard input, and writes a page with the report's
//! picture to standard output.
#![tactic(auto)]

mod drawing;
mod report;

use drawing::{Timeline, timeline_of};
use dsql_script_source::Stop;
use std::io::{ErrorKind, Read};
use std::process::ExitCode;

/// Reads standard input to its end.
fn read_all<R: Input + AllocGlobal>(rt: &R) -> Result<Vec<u8>, Stop> {
    let mut bytes = Vec::new(rt.alloc());
    match rt.reader().read_to_end(&mut bytes) {
        Ok(_) => Ok(bytes),
        Err(e) if e.kind() == ErrorKind::OutOfMemory => Err(Stop::Memory),
        Err(_) => Err(Stop::Read),
    }
}

/// Draws the report on standard input, as far as its lines are those of events.
fn run<R: Input + Print + AllocGlobal>(rt: &R) -> Result<(), Stop> {
    let bytes = read_all(rt)?;
    let Timeline { page, refused } = timeline_of(rt.alloc(), &bytes)?;
    if rt.write_all(&page).is_err() {
        return Err(Stop::Write);
    }
    match refused {
        None => Ok(()),
        Some(stop) => Err(stop),
    }
}

/// Returns the status of the program, if this stops it.
fn status_of(stop: &Stop) -> u8 {
    match stop {
        Stop::Read => 3,
        Stop::Write => 4,
        Stop::Memory => 5,
        Stop::Refused { .. } => 7,
        Stop::Full => 10,
    }
}

fn main(rt: HostRuntime) -> ExitCode {
    let Err(stop) = run(&rt) else {
        return ExitCode::SUCCESS;
    };
    let status = status_of(&stop);
    match eprintln!(rt; "timeline: {stop}") {
        Ok(()) => ExitCode::from(status),
        Err(_) => ExitCode::from(4),
    }
}

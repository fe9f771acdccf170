//! The program. Plays or races a script of clients' calls from standard input on the database layer, over a driver in
//! memory. Writes the run's report or summary to standard output. It also generates scripts.
#![tactic(auto)]

use dsql_driver::OpenGate;
use dsql_driver_stream::{StdClock, StdSink, StdSource};
use dsql_mem::MemFleet;
use dsql_run::{Stop, sqlrun, tell};
use dsql_run_words::words_of;
use dsql_value::{Memory, Txt};
use std::env::{self, Env};
use std::mem;
use std::process::ExitCode;
use std::sync::Wait;

/// Returns what the program needs before it reads anything: its words, and a driver in memory.
fn prepared<R: Env + AllocGlobal + Wait + Clone + Drop + Send>(
    rt: &R,
) -> Result<(Vec<Txt>, MemFleet<R>), Memory> {
    let words = words_of(rt.alloc(), env::args(rt))?;
    let fleet = MemFleet::new(rt.clone()?)?;
    Ok((words, fleet))
}

fn main(rt: HostRuntime) -> ExitCode {
    let mut notes = StdSink::new(rt.stderr());
    let (words, mut fleet) = match prepared(&rt) {
        Ok(prepared) => prepared,
        Err(Memory) => {
            let status = tell(rt.alloc(), &Err(Stop::Memory), &mut notes);
            return ExitCode::from(status);
        }
    };
    let mut input = StdSource::new(rt.stdin());
    let mut output = StdSink::new(rt.stdout());
    let mut clock = StdClock::new(&rt);
    let status = sqlrun(
        &rt,
        rt.alloc(),
        &words,
        &mut input,
        &mut output,
        &mut notes,
        &mut fleet,
        &mut clock,
        &OpenGate,
    );

    // The process frees the fleet's store as it ends, as it does what the run kept.
    mem::forget(fleet);
    ExitCode::from(status)
}

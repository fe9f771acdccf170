//! A custom driver, as an example. It answers each query without parameters from a fixed table of three rows,
//! and refuses commands. The program plays a script of clients' calls over it, from standard input to standard
//! output.
#![tactic(auto)]

mod fleet;
mod table;
mod wire;

use dsql_driver::OpenGate;
use dsql_driver_stream::{StdClock, StdSink, StdSource};
use dsql_run::{Stop, sqlrun, tell};
use dsql_run_words::words_of;
use fleet::FixedFleet;
use std::env;
use std::process::ExitCode;

fn main(rt: HostRuntime) -> ExitCode {
    let mut notes = StdSink::new(rt.stderr());
    let Ok(words) = words_of(rt.alloc(), env::args(&rt)) else {
        let status = tell(rt.alloc(), &Err(Stop::Memory), &mut notes);
        return ExitCode::from(status);
    };
    let mut input = StdSource::new(rt.stdin());
    let mut output = StdSink::new(rt.stdout());
    let mut fleet = FixedFleet::new(rt.alloc());
    let mut clock = StdClock::new(&rt);
    let status = sqlrun(
        &rt,
        rt.alloc(),
        &words,
        &mut input,
        &mut output,
        &mut notes,
        &mut fleet,
        &mut clock,
        &OpenGate,
    );
    ExitCode::from(status)
}

//! A program over SQLite, as an example. Plays a script of clients' calls with real SQL from standard input, and writes
//! the run's report or summary to standard output, as `sqlrun` does. The database is in memory, or in a file if the
//! program's first words are `--file PATH`.
#![tactic(auto)]

use dsql_driver::OpenGate;
use dsql_driver_stream::{StdClock, StdSink, StdSource};
use dsql_run::{Stop, sqlrun, tell};
use dsql_run_words::words_of;
use dsql_value::Txt;
use sqlite::{Connection, Error, ErrorCode};
use sqlite_driver::SqliteFleet;
use std::process::ExitCode;
use std::{env, mem};

/// Takes the path of a file and the word before it out of the words. Returns `None` if no path stands there.
fn take_path(words: &mut Vec<Txt>) -> Option<Txt> {
    if words.len() < 2 || words[0].as_str() != "--file" {
        return None;
    }
    let _flag = words.remove(0);
    Some(words.remove(0))
}

/// Notes why the file can't be opened, and returns the status: 5 for want of memory, 4 if the note fails, and 6
/// otherwise.
fn unopened(rt: &impl Eprint, error: Error) -> u8 {
    let is_noted = eprintln!(rt; "sqlite_play: {error}").is_ok();
    match error {
        Error::SqliteFailure(ErrorCode::OutOfMemory) => 5,
        _ if is_noted => 6,
        _ => 4,
    }
}

fn main(rt: HostRuntime) -> ExitCode {
    let mut notes = StdSink::new(rt.stderr());
    let Ok(mut words) = words_of(rt.alloc(), env::args(&rt)) else {
        let status = tell(rt.alloc(), &Err(Stop::Memory), &mut notes);
        return ExitCode::from(status);
    };
    let fleet = match take_path(&mut words) {
        None => SqliteFleet::new(&rt),
        Some(path) => match Connection::open(&rt, path.as_str()) {
            Ok(connection) => SqliteFleet::on_file(&rt, connection),
            Err(error) => return ExitCode::from(unopened(&rt, error)),
        },
    };
    let Ok(mut fleet) = fleet else {
        let status = tell(rt.alloc(), &Err(Stop::Memory), &mut notes);
        return ExitCode::from(status);
    };
    let mut input = StdSource::new(rt.stdin());
    let mut output = StdSink::new(rt.stdout());
    let mut clock = StdClock::new(&rt);
    let status = sqlrun(
        &rt,
        rt.alloc(),
        &words,
        &mut input,
        &mut output,
        &mut notes,
        &mut fleet,
        &mut clock,
        &OpenGate,
    );

    // The process frees the database as it ends, as it does what the run kept.
    mem::forget(fleet);
    ExitCode::from(status)
}

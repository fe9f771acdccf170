ghost use Rattle.std.specs.Prelude.{◌≡◌, ◌≤◌, OnOk, OnErr, IfOk, string_bytes};
ghost use Rattle.dsql_hall.specs.driver.Streams.{HasRisen, has_risen};
ghost use Rattle.dsql_script_show.specs.Report.{with_text, ShowsFront};
ghost use Rattle.dsql_run_outcome.specs.Headline.{seen_notes, RefusesWords};
ghost use Rattle.dsql_run_outcome.specs.Notes.{note_of, status_of, failed_status, Tells};

use dsql_driver_stream::write_whole;
use dsql_hall::{Memory, Sink};
use dsql_script_show::ShowFault;
use dsql_script_source::Stop;
use std::alloc::Global;

/// Returns the line that says what stopped a run.
fn note(alloc: Global, stop: &Stop) -> Result<String, Memory>
    ensures { IfOk result (λ line. string_bytes line ≡ note_of stop.now) }
{
    Ok(format!(in alloc; "sqlrun: {stop}\n")?)
}

/// Writes the line that says what stopped a run.
fn write_note<E: Sink>(alloc: Global, stop: &Stop, notes: &mut E) -> Result<(), ShowFault>
    ensures ok { OnOk result (E.written notes.new ≡ with_text (E.written notes.old) (note_of stop.now)) }
    ensures err { OnErr result (ShowsFront (E.written notes.old) (note_of stop.now) (E.written notes.new)) }
    ensures caused { result ≡ Err ShowFault.Failed → HasRisen (E.faults notes.old) (E.faults notes.new) }
    ensures unwritten { result ≡ Err ShowFault.Memory → E.written notes.new ≡ E.written notes.old }
    ensures counted { E.faults notes.old ≤ E.faults notes.new }
{
    let line = note(alloc, stop)?;
    write_whole(notes, line.as_bytes())?;
    Ok(())
}

fn status_of(stop: &Stop) -> u8
    ensures { result ≡ status_of stop.now }
{
    match stop {
        Stop::Read => 3,
        Stop::Write => 4,
        Stop::Memory => 5,
        Stop::Refused { .. } => 7,
        Stop::Full => 10,
    }
}

/// Returns the status of a stop that couldn't be noted.
fn failed_status(stop: &Stop, fault: ShowFault) -> u8
    ensures { result ≡ failed_status stop.now fault }
{
    match (stop, fault) {
        (_, ShowFault::Memory) | (Stop::Memory, _) => 5,
        (Stop::Full, ShowFault::Failed) => 10,
        (_, ShowFault::Failed) => 4,
    }
}

/// Notes what stopped a run, if anything did, and returns the status. If the notes fail, the status is 4,
/// unless it was 5 or 10. If there is no memory for the line, the status is 5.
pub fn tell<E: Sink>(alloc: Global, ended: &Result<(), Stop>, notes: &mut E) -> u8
    ensures told { Tells ended.now (has_risen (E.faults notes.old) (E.faults notes.new)) (E.written notes.old)
        (E.written notes.new) result }
    ensures silent { OnOk ended.now (notes.new ≡ notes.old) }
{
    let Err(stop) = ended else {
        return 0;
    };
    match write_note(alloc, stop, notes) {
        Ok(()) => status_of(stop),
        Err(fault) => failed_status(stop, fault),
    }
}

/// Notes how the program is called, and returns the status.
pub fn tell_usage<E: Sink>(notes: &mut E) -> u8
    ensures { RefusesWords (seen_notes E.Sink notes.old) (seen_notes E.Sink notes.new) result }
{
    match write_whole(
        notes,
        "sqlrun: usage: sqlrun play [--summary] | race | gen N\n".as_bytes(),
    ) {
        Ok(()) => 2,
        Err(_) => 4,
    }
}

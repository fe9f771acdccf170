//! Plays a script for its summary.
ghost use Rattle.std.specs.Prelude.{◌≡◌, None, true, false, IfSome};
ghost use Rattle.dsql_run_outcome.specs.driver.Streams.{HasRisen};
ghost use Rattle.dsql_run_outcome.specs.Headline.{seen, seen_notes};
ghost use Rattle.dsql_run_outcome.specs.Runs.{Finishes, IsLinesEnd, is_write_fault};
ghost use Rattle.dsql_run_outcome.specs.Summing.{SumsUpAndTells, WritesPiece};
ghost use Rattle.dsql_run_outcome.specs.script_show.Summary.{line_of, summary_of};

use crate::playing::{Kept, Played, play_keeping};
use dsql_run_outcome::{
    Failed, Fleet, Sink, Source, Stop, summary_line, summary_of, tell, write_whole,
};
use std::alloc::Global;
use std::mem;

/// A sink that accepts every byte and keeps nothing.
#[derive(Drop)]
struct Unkept;

impl Sink for Unkept {
    ghost written = { λ _. None };

    ghost faults = { λ _. 0 };

    fn write(&mut self, piece: &[u8]) -> Result<usize, Failed> {
        Ok(piece.len())
    }
}

/// Plays a script without its report, writes its summary if its lines came to an end, and returns a status. If
/// something stopped the run, notes what it was.
pub(crate) fn sum_up<S: Source, K: Sink, E: Sink, F: Fleet>(
    alloc: Global,
    input: &mut S,
    output: &mut K,
    notes: &mut E,
    fleet: &mut F,
) -> u8
    ensures summed { SumsUpAndTells
        (seen S.Source K.Sink F.Fleet input.old output.old fleet.old)
        (seen S.Source K.Sink F.Fleet input.new output.new fleet.new)
        (seen_notes E.Sink notes.old) (seen_notes E.Sink notes.new) result }
    ensures silent { result ≡ 0 → notes.new ≡ notes.old }
{
    let mut unkept = Unkept;
    let Played { stopped, kept } = play_keeping(alloc, true, input, &mut unkept, fleet);
    let told = write_summary(alloc, stopped, &kept, output);

    // The process frees all memory at once as it ends, as it does after a report.
    mem::forget(kept);
    tell(alloc, &told, notes)
}

/// Is true if the lines of a script came to an end.
fn lines_ended(stopped: &Result<(), Stop>) -> bool
    ensures over { result ≡ true → IsLinesEnd stopped.now }
    ensures cut { result ≡ false → IsLinesEnd stopped.now → ⊥ }
{
    !matches!(stopped, Err(Stop::Write | Stop::Memory | Stop::Full))
}

/// Writes the summary of a run if the lines of its script came to an end.
fn write_summary<K: Sink>(
    alloc: Global,
    stopped: Result<(), Stop>,
    kept: &Option<Kept>,
    output: &mut K,
) -> Result<(), Stop>
    requires whole { IfSome kept.now (λ kept. kept.player.trimmed ≡ 0) }
    ensures finishes { Finishes stopped result }
    ensures written { IfSome kept.now (λ kept. WritesPiece result
        (line_of (summary_of kept.script.reader.lines kept.player.past)) (K.written output.old)
        (K.written output.new)) }
    ensures none { kept.now ≡ None → output.new ≡ output.old }
    ensures stays { kept.now ≡ None → result ≡ stopped }
    ensures caused { result ≡ Err Stop.Write → is_write_fault stopped ≡ false
        → HasRisen (K.faults output.old) (K.faults output.new) }
    ensures faultless { is_write_fault result ≡ false → K.faults output.new ≡ K.faults output.old }
{
    let Some(kept) = kept else {
        return stopped;
    };
    if !lines_ended(&stopped) {
        return stopped;
    }
    let lines = u64::from(kept.script.count());
    let Ok(line) = summary_line(alloc, &summary_of(lines, kept.player.history())) else {
        return Err(Stop::Memory);
    };
    match write_whole(output, line.as_bytes()) {
        Ok(()) => stopped,
        Err(_) => Err(Stop::Write),
    }
}

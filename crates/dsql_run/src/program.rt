ghost use Rattle.std.specs.Prelude.{◌≡◌, ◌≢◌, ◌⊎◌, true, false, Some, None, is_some};
ghost use Rattle.dsql_run_outcome.specs.driver.Streams.{HasRisen};
ghost use Rattle.dsql_run_outcome.specs.script_generator.Script.{generated};
ghost use Rattle.dsql_run_outcome.specs.script_show.Report.{with_text};
ghost use Rattle.dsql_run_outcome.specs.script_generator.declared.words.Command.TheVariants.{Play, Race, Summarize};
ghost use Rattle.dsql_run_outcome.specs.Notes.{is_status};
ghost use Rattle.dsql_run_outcome.specs.Headline.{seen, seen_notes, PlaysAndTells, PlaysWhole, RacesAndTells, RacesWhole, RefusesWords};
ghost use Rattle.dsql_run_outcome.specs.Summing.{GeneratesAndTells, IfGenerates, SumsUpAndTells, SumsUpWhole, runs_a_script};
ghost use Rattle.dsql_run_outcome.specs.script_generator.Words.{command_of};

use crate::generating::generate_lines;
use crate::playing::{Played, play_keeping};
use crate::racing::{RacedScript, race_keeping};
use crate::summing::sum_up;
use dsql_run_outcome::{
    Clock, Command, Fleet, Gate, Sink, Source, Txt, command_of, tell, tell_usage,
};
use std::alloc::Global;
use std::mem;
use std::sync::Wait;
use std::thread::Threads;

/// Plays a script from its first event to its end and returns a status. If something stopped it, notes what it
/// was.
fn run<S: Source, K: Sink, E: Sink, F: Fleet>(
    alloc: Global,
    input: &mut S,
    output: &mut K,
    notes: &mut E,
    fleet: &mut F,
) -> u8
    ensures ran { PlaysAndTells
        (seen S.Source K.Sink F.Fleet input.old output.old fleet.old)
        (seen S.Source K.Sink F.Fleet input.new output.new fleet.new)
        (seen_notes E.Sink notes.old) (seen_notes E.Sink notes.new) result }
    ensures silent { result ≡ 0 → notes.new ≡ notes.old }
{
    let Played { stopped, kept } = play_keeping(alloc, false, input, output, fleet);

    // The process ends with the run and frees all memory at once, which costs no time for each event.
    mem::forget(kept);
    tell(alloc, &stopped, notes)
}

/// Races a script from its first event to its end and returns a status. If something stopped it, notes what it was.
fn run_race<S: Source, K: Sink, E: Sink, F: Fleet, C: Clock, G: Gate, R: Threads + Wait + Sync>(
    rt: &R,
    alloc: Global,
    input: &mut S,
    output: &mut K,
    notes: &mut E,
    fleet: &mut F,
    clock: &mut C,
    gate: &G,
) -> u8
    ensures raced { RacesAndTells
        (seen S.Source K.Sink F.Fleet input.old output.old fleet.old)
        (seen S.Source K.Sink F.Fleet input.new output.new fleet.new)
        (seen_notes E.Sink notes.old) (seen_notes E.Sink notes.new) result }
    ensures silent { result ≡ 0 → notes.new ≡ notes.old }
{
    let RacedScript { stopped, kept } = race_keeping(rt, alloc, input, output, fleet, clock, gate);

    // The process frees all memory at once as it ends, as it does after a script that is played.
    mem::forget(kept);
    tell(alloc, &stopped, notes)
}

/// Runs the program and returns its exit status. `words` are the words it was called with, without its name.
/// With `play` the program plays the script that the source gives, and writes the run's report to the output.
/// `play --summary` writes the run's summary instead of the report. With `race` the program reads the whole script
/// first. Then each client goes on by itself, on a thread, and the report is written at the run's end. `gen N`, with N
/// from 1 to 10,000, writes N lines of a script.
///
/// | status | when | what the notes get |
/// |---|---|---|
/// | 0 | the script was read to its end and played or raced, or was generated | nothing |
/// | 2 | the words aren't accepted; nothing is read or written | `sqlrun: usage: sqlrun play [--summary] \| race \| gen N` |
/// | 3 | the source failed | `sqlrun: read fault` |
/// | 4 | the output failed, or the notes failed | `sqlrun: write fault` |
/// | 5 | there was no memory | `sqlrun: out of memory` |
/// | 7 | the line L is refused | `sqlrun: line L: REASON` |
/// | 10 | the run has 4,000,000 events | `sqlrun: too many events` |
///
/// After a read fault or a refused line the program ends the run as at the script's end, and its summary covers
/// the lines before. A race then has these lines alone. After a write fault the program still ends the run, and the
/// output holds a beginning of the report.
/// If the output didn't fail, the status is 4 only if the notes failed. If memory or the number of events stopped the
/// run, the program writes no summary.
///
/// The program doesn't free the memory that the run kept, because the process ends then. `play` frees it.
pub fn sqlrun<S: Source, K: Sink, E: Sink, F: Fleet, C: Clock, G: Gate, R: Threads + Wait + Sync>(
    rt: &R,
    alloc: Global,
    words: &[Txt],
    input: &mut S,
    output: &mut K,
    notes: &mut E,
    fleet: &mut F,
    clock: &mut C,
    gate: &G,
) -> u8
    // If a script was played to its end, its report is the text of one legal history.
    ensures headline { command_of words.now ≡ Some Play → result ≡ 0 → PlaysWhole
        (seen S.Source K.Sink F.Fleet input.old output.old fleet.old)
        (seen S.Source K.Sink F.Fleet input.new output.new fleet.new)
        (seen_notes E.Sink notes.old) (seen_notes E.Sink notes.new) }

    // At each status the report is the text of one legal history, or a beginning of that text.
    ensures ran { command_of words.now ≡ Some Play → PlaysAndTells
        (seen S.Source K.Sink F.Fleet input.old output.old fleet.old)
        (seen S.Source K.Sink F.Fleet input.new output.new fleet.new)
        (seen_notes E.Sink notes.old) (seen_notes E.Sink notes.new) result }

    // If a script was raced to its end, its report is the text of one legal history. At each status the report is the
    // text of such a history, or a beginning of that text.
    ensures race_headline { command_of words.now ≡ Some Race → result ≡ 0 → RacesWhole
        (seen S.Source K.Sink F.Fleet input.old output.old fleet.old)
        (seen S.Source K.Sink F.Fleet input.new output.new fleet.new)
        (seen_notes E.Sink notes.old) (seen_notes E.Sink notes.new) }
    ensures raced { command_of words.now ≡ Some Race → RacesAndTells
        (seen S.Source K.Sink F.Fleet input.old output.old fleet.old)
        (seen S.Source K.Sink F.Fleet input.new output.new fleet.new)
        (seen_notes E.Sink notes.old) (seen_notes E.Sink notes.new) result }

    // If a script was played to its end, its summary is that of one legal history. At each status what was
    // written is the summary of such a history, or a beginning of it.
    ensures summary { command_of words.now ≡ Some Summarize → result ≡ 0 → SumsUpWhole
        (seen S.Source K.Sink F.Fleet input.old output.old fleet.old)
        (seen S.Source K.Sink F.Fleet input.new output.new fleet.new)
        (seen_notes E.Sink notes.old) (seen_notes E.Sink notes.new) }
    ensures summed { command_of words.now ≡ Some Summarize → SumsUpAndTells
        (seen S.Source K.Sink F.Fleet input.old output.old fleet.old)
        (seen S.Source K.Sink F.Fleet input.new output.new fleet.new)
        (seen_notes E.Sink notes.old) (seen_notes E.Sink notes.new) result }

    // A generated script has exactly the lines that it should have. To generate it, the program reads nothing
    // and asks the fleet for nothing.
    ensures lines { IfGenerates (command_of words.now) (λ n. result ≡ 0 → K.written output.new
        ≡ with_text (K.written output.old) (generated n)) }
    ensures generated { IfGenerates (command_of words.now) (λ n. GeneratesAndTells n (seen_notes K.Sink output.old)
        (seen_notes K.Sink output.new) (seen_notes E.Sink notes.old) (seen_notes E.Sink notes.new) result) }
    ensures unread { runs_a_script (command_of words.now) ≡ false → input.new ≡ input.old }
    ensures unopened { runs_a_script (command_of words.now) ≡ false → fleet.new ≡ fleet.old }

    // These say what a status means for the streams, whatever the streams record.
    ensures known { is_status result ≡ true }
    ensures accepted { is_some (command_of words.now) ≡ true → result ≢ 2 }
    ensures silent { is_some (command_of words.now) ≡ true → result ≡ 0 → notes.new ≡ notes.old }
    ensures read_fault { runs_a_script (command_of words.now) ≡ true → result ≡ 3
        → HasRisen (S.faults input.old) (S.faults input.new) }
    ensures write_fault { is_some (command_of words.now) ≡ true → result ≡ 4
        → HasRisen (K.faults output.old) (K.faults output.new)
        ⊎ HasRisen (E.faults notes.old) (E.faults notes.new) }

    // These hold if the words aren't accepted.
    ensures refused { command_of words.now ≡ None
        → RefusesWords (seen_notes E.Sink notes.old) (seen_notes E.Sink notes.new) result }
    ensures unwritten { command_of words.now ≡ None → output.new ≡ output.old }
{
    match command_of(words) {
        Some(Command::Play) => run(alloc, input, output, notes, fleet),
        Some(Command::Race) => run_race(rt, alloc, input, output, notes, fleet, clock, gate),
        Some(Command::Summarize) => sum_up(alloc, input, output, notes, fleet),
        Some(Command::Generate(lines)) => generate_lines(alloc, lines, output, notes),
        None => tell_usage(notes),
    }
}

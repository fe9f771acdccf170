//! Plays a script from its first line to its end.
ghost use Rattle.std.specs.Prelude.{◌≡◌, ◌≤◌, ℕ, Bool, List, [], ◌∷◌, Option, None, true, false, length, Err, is_some, IfOk, IfSome};
ghost use Rattle.dsql_run_outcome.specs.driver.declared.caps.Caps.{Caps};
ghost use Rattle.dsql_run_outcome.specs.driver.Streams.{HasRisen, has_risen};
ghost use Rattle.dsql_run_outcome.specs.history.declared.event.Event.TheVariants.{Run};
ghost use Rattle.dsql_run_outcome.specs.follows.declared.line.Line.{Line};
ghost use Rattle.dsql_run_outcome.specs.follows.Moments.{just_begun};
ghost use Rattle.dsql_run_outcome.specs.Headline.{IsPlayed, NotBegun, RanSo, seen};
ghost use Rattle.dsql_run_outcome.specs.Lent.{lent};
ghost use Rattle.dsql_run_outcome.specs.Playing.{HasHead, IsOver, LinesPlayed, MatchesLabels, ReadsLater, RunsOn, ScriptPlayed, WritesLines, WritesWell};
ghost use Rattle.dsql_run_outcome.specs.Runs.{Between, Writes, is_write_fault, ran_out};
ghost use Rattle.dsql_run_outcome.specs.player.Playing.{IsAt, IsReady};
ghost use Rattle.dsql_run_outcome.specs.script_source.Reading.{IsHeadRead};
ghost use Rattle.dsql_run_outcome.specs.script_source.Stops.{is_read_fault, no_read_failed};
ghost use Rattle.dsql_run_outcome.specs.laws_steps.Groups.{most_events};
ghost use Rattle.dsql_run_outcome.specs.stream.Faults.{CountsFaults};
ghost use Rattle.dsql_run_outcome.specs.player_wires.WiresFit.{PlansFit};

use crate::carrying::play_line;
use crate::closing::close;
use crate::finishing::finish;
use crate::showing::{show_history, trim_shown};
use dsql_run_outcome::{
    Fleet, Player, Room, ScriptLine, ScriptReader, Shown, Sink, Source, Stop, Wires,
    line_as_played, read_head,
};
use std::alloc::Global;

/// Plays the lines of a script in order, from the first line after its head. Plays each as soon as it is read, and
/// writes what happened. Trims what was written, unless the whole history is kept.
fn play_lines<S: Source, K: Sink, F: Fleet>(
    alloc: Global,
    keeps: bool,
    player: &mut Player,
    wires: &mut Wires<F::Wire>,
    shown: &mut Shown,
    script: &mut ScriptReader,
    first: Result<Option<ScriptLine>, Stop>,
    input: &mut S,
    output: &mut K,
    fleet: &mut F,
) -> Result<(), Stop>
    requires begun { player.old.past ≡ Run 1 (F.ability fleet.old) ∷ [] }
    requires at { IsAt (just_begun (Run 1 (F.ability fleet.old))) player.old }
    requires between { Between F.Wire.told (is_some (F.told fleet.old)) player.old wires.old }
    requires unplanned { PlansFit F.Wire.told [] player.old.past wires.old }
    requires shown { shown.old ≡ 0 }
    requires whole { player.old.trimmed ≡ 0 }
    requires first { IsHeadRead first script.old.reader }
    requires named { IfOk first (λ line. MatchesLabels line script.old.reader player.old) }
    ensures between { ran_out result ≡ true → Between F.Wire.told (is_some (F.told fleet.new)) player.new wires.new }
    ensures lines { (before : Option (List ℕ)) (asked : Option Caps) (skipped : List Line)
        → HasHead first before script.old (S.left input.old) asked skipped
        → LinesPlayed result before (S.left input.new) script.new.reader.lines asked
        (Run 1 (F.ability fleet.old)) player.new (K.written output.old) (K.written output.new)
        (lent F.Fleet F.Wire.told fleet.old fleet.new wires.new) }
    ensures writes { WritesLines result player.new.past (K.written output.old) shown.new (K.written output.new) }
    ensures trimmed { player.new.trimmed ≤ shown.new }
    ensures kept { keeps ≡ true → player.new.trimmed ≡ 0 }
    ensures reads { ReadsLater first result (S.faults input.old) (S.faults input.new) }
    ensures read_well { is_read_fault result ≡ false → S.faults input.new ≡ S.faults input.old }
    ensures faults { CountsFaults (is_write_fault result) (K.faults output.old) (K.faults output.new) }
    ensures full { result ≡ Err Stop.Full → most_events ≤ length player.new.past }
    ensures on { RunsOn F.Fleet fleet.old fleet.new player.old.past player.new.past }
{
    show_history(alloc, player, shown, output)?;
    let mut next = first?;
    while let Some(line) = next {
        play_line(
            alloc,
            player,
            wires,
            shown,
            output,
            fleet,
            line_as_played(line),
        )?;
        next = script.next(alloc, input)?;
        trim_shown(player, keeps);
    }
    Ok(())
}

/// Plays a script from the first line after its head, and writes the report to the sink. Trims what was
/// written, unless the whole history is kept.
fn play_from<S: Source, K: Sink, F: Fleet>(
    alloc: Global,
    keeps: bool,
    player: &mut Player,
    script: &mut ScriptReader,
    first: Result<Option<ScriptLine>, Stop>,
    input: &mut S,
    output: &mut K,
    fleet: &mut F,
) -> Result<(), Stop>
    requires begun { player.old.past ≡ Run 1 (F.ability fleet.old) ∷ [] }
    requires at { IsAt (just_begun (Run 1 (F.ability fleet.old))) player.old }
    requires ready { IsReady player.old }
    requires whole { player.old.trimmed ≡ 0 }
    requires first { IsHeadRead first script.old.reader }
    requires named { IfOk first (λ line. MatchesLabels line script.old.reader player.old) }
    ensures on { RunsOn F.Fleet fleet.old fleet.new player.old.past player.new.past }
    ensures script { (before : Option (List ℕ)) (asked : Option Caps) (skipped : List Line) (failed : Bool)
        → HasHead first before script.old (S.left input.old) asked skipped
        → (first ≡ Err Stop.Read → failed ≡ true) → (HasRisen (S.faults input.old) (S.faults input.new)
        → failed ≡ true) → ScriptPlayed result before (S.left input.new) script.new.reader.lines asked failed
        (Run 1 (F.ability fleet.old)) player.new.past (K.written output.old) (K.written output.new)
        (F.told fleet.old) (F.told fleet.new) }
    ensures over { ran_out result ≡ true → IsOver player.new.past }
    ensures kept { keeps ≡ true → player.new.trimmed ≡ 0 }
    ensures writes { Writes result (has_risen (K.faults output.old) (K.faults output.new))
        (K.written output.old) player.new.past (K.written output.new) }
    ensures reads { ReadsLater first result (S.faults input.old) (S.faults input.new) }
    ensures read_well { no_read_failed result ≡ true → S.faults input.new ≡ S.faults input.old }
    ensures written_well { WritesWell result (K.faults output.old) (K.faults output.new) }
    ensures full { result ≡ Err Stop.Full → most_events ≤ length player.new.past }
{
    let mut wires = Wires::new(alloc);
    let mut shown = Shown::none(alloc);
    let played = play_lines(
        alloc, keeps, player, &mut wires, &mut shown, script, first, input, output, fleet,
    );
    let ended = close(player, wires, fleet, played);
    finish(alloc, player, &mut shown, output, played, ended)
}

/// What a run keeps until it is over: the untrimmed part of its history, the tables over it, and what was read of the
/// script.
#[derive(Drop)]
pub(crate) struct Kept {
    pub player: Player,
    pub script: ScriptReader,
}

/// A run that was played: what stopped it, and what it kept if it began.
#[derive(Drop)]
pub(crate) struct Played {
    pub stopped: Result<(), Stop>,
    pub kept: Option<Kept>,
}

impl Played {
    /// Returns a run that didn't begin for want of memory.
    fn not_begun() -> Played
        ensures { result ≡ record { stopped = Err Stop.Memory; kept = None } }
    {
        Played {
            stopped: Err(Stop::Memory),
            kept: None,
        }
    }
}

/// Plays a script as `play` does, and returns what the run kept, because freeing it takes long. If `keeps` is
/// set, this is the whole history; otherwise it is only the part that wasn't trimmed.
pub(crate) fn play_keeping<S: Source, K: Sink, F: Fleet>(
    alloc: Global,
    keeps: bool,
    input: &mut S,
    output: &mut K,
    fleet: &mut F,
) -> Played
    ensures ran { IsPlayed result.stopped
        (seen S.Source K.Sink F.Fleet input.old output.old fleet.old)
        (seen S.Source K.Sink F.Fleet input.new output.new fleet.new) }
    ensures kept { IfSome result.kept (λ kept. RanSo result.stopped
        (seen S.Source K.Sink F.Fleet input.old output.old fleet.old)
        (seen S.Source K.Sink F.Fleet input.new output.new fleet.new) kept.player.past kept.script.reader.lines) }
    ensures whole { keeps ≡ true → IfSome result.kept (λ kept. kept.player.trimmed ≡ 0) }
    ensures none { result.kept ≡ None → NotBegun result.stopped
        (seen S.Source K.Sink F.Fleet input.old output.old fleet.old)
        (seen S.Source K.Sink F.Fleet input.new output.new fleet.new) }
{
    let Ok(script) = ScriptReader::new(alloc, false) else {
        return Played::not_begun();
    };
    let Ok(room) = Room::new(alloc) else {
        return Played::not_begun();
    };
    let mut script = script;
    let first = read_head(alloc, &mut script, input, fleet);
    let mut player = Player::new(room, 1, fleet.caps());
    let stopped = play_from(
        alloc,
        keeps,
        &mut player,
        &mut script,
        first,
        input,
        output,
        fleet,
    );
    Played {
        stopped,
        kept: Some(Kept { player, script }),
    }
}

/// Plays a script from the source to its end, and writes its report to the sink. The run begins at the first line that
/// is neither skipped nor part of the head, or at the script's end. It begins with what the fleet can do at that
/// moment. The run ends early at the first line that is refused, and when the source or the sink fails. Even then its
/// connections are shut and given back to the fleet.
///
/// # Errors
///
/// Fails with `Memory` before it reads anything if there is no memory with which a run begins. Fails with what stopped
/// the script otherwise. If the sink failed, memory was wanting, or the events became too many after that, fails with
/// the later fault.
pub fn play<S: Source, K: Sink, F: Fleet>(
    alloc: Global,
    input: &mut S,
    output: &mut K,
    fleet: &mut F,
) -> Result<(), Stop>
    ensures ran { IsPlayed result
        (seen S.Source K.Sink F.Fleet input.old output.old fleet.old)
        (seen S.Source K.Sink F.Fleet input.new output.new fleet.new) }
{
    play_keeping(alloc, false, input, output, fleet).stopped
}

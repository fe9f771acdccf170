//! Races a script from its first line to its end.
ghost use Rattle.std.specs.Prelude.{◌≡◌, true, None};
ghost use Rattle.dsql_run_outcome.specs.Headline.{IsRun, seen};

use crate::finishing::finish;
use crate::racing_lines::{RacedLines, race_read};
use dsql_run_outcome::{Clock, Fleet, Gate, Player, Room, Shown, Sink, Source, Stop, read_script};
use std::alloc::Global;
use std::sync::Wait;
use std::thread::Threads;

/// A script that was raced: what stopped it, and the player with the whole history if the run began.
#[derive(Drop)]
pub(crate) struct RacedScript {
    pub stopped: Result<(), Stop>,
    pub kept: Option<Player>,
}

/// Races a script as `race_script` does, and returns what the run kept, because freeing it takes long.
pub(crate) fn race_keeping<
    S: Source,
    K: Sink,
    F: Fleet,
    C: Clock,
    G: Gate,
    R: Threads + Wait + Sync,
>(
    rt: &R,
    alloc: Global,
    input: &mut S,
    output: &mut K,
    fleet: &mut F,
    clock: &mut C,
    gate: &G,
) -> RacedScript
    ensures { IsRun true result.stopped
        (seen S.Source K.Sink F.Fleet input.old output.old fleet.old)
        (seen S.Source K.Sink F.Fleet input.new output.new fleet.new) }
{
    let Ok(room) = Room::new(alloc) else {
        return RacedScript {
            stopped: Err(Stop::Memory),
            kept: None,
        };
    };
    let read = read_script(alloc, input, fleet);
    let reading = read.stopped;
    let player = Player::new(room, 1, fleet.caps());
    let RacedLines { player, stopped } = race_read(rt, alloc, player, read, fleet, clock, gate);
    let stopped = finish(
        alloc,
        &player,
        &mut Shown::none(alloc),
        output,
        reading,
        stopped,
    );
    RacedScript {
        stopped,
        kept: Some(player),
    }
}

/// Races a script. Reads the whole of it from the source, lets each of its clients go on by itself, and then writes the
/// report to the sink. The run begins with what the fleet can do after the script was read. All faults are
/// planned first. Limits that stand before the first line of a client are set before any call enters. If a line is
/// refused or the source fails, the lines before are raced. At the end all connections are shut and given back to the
/// fleet.
///
/// # Errors
///
/// Fails with `Memory` before it reads anything if there is no memory with which a run begins. Fails with what stopped
/// the script otherwise. If memory was wanting, the events became too many, or the sink failed after that, fails with
/// the later fault.
pub fn race_script<S: Source, K: Sink, F: Fleet, C: Clock, G: Gate, R: Threads + Wait + Sync>(
    rt: &R,
    alloc: Global,
    input: &mut S,
    output: &mut K,
    fleet: &mut F,
    clock: &mut C,
    gate: &G,
) -> Result<(), Stop>
    ensures ran { IsRun true result
        (seen S.Source K.Sink F.Fleet input.old output.old fleet.old)
        (seen S.Source K.Sink F.Fleet input.new output.new fleet.new) }
{
    race_keeping(rt, alloc, input, output, fleet, clock, gate).stopped
}

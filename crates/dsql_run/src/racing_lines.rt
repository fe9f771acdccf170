//! Races the lines of a script that were read.
ghost use Rattle.std.specs.Prelude.{◌≡◌, ◌≤◌, ◌∷◌, ◌++◌, ℕ, List, [], Option, true, false, reverse, sum_by, IfErr};
ghost use Rattle.std.specs.List.{list_all};
ghost use Rattle.dsql_run_outcome.specs.driver.Wires.{FleetTold};
ghost use Rattle.dsql_run_outcome.specs.history.declared.event.Event.TheVariants.{Run};
ghost use Rattle.dsql_run_outcome.specs.follows.Labels.{times_in};
ghost use Rattle.dsql_run_outcome.specs.follows.Moments.{just_begun};
ghost use Rattle.dsql_run_outcome.specs.Racing.{LinesRaced};
ghost use Rattle.dsql_run_outcome.specs.Runs.{ran_out, stop_of};
ghost use Rattle.dsql_run_outcome.specs.hall.Raced.{plans_first};
ghost use Rattle.dsql_run_outcome.specs.hall.hall_steps.Limits.{settings_first, settings_of};
ghost use Rattle.dsql_run_outcome.specs.hall.hall_steps.Racing.{resting};
ghost use Rattle.dsql_run_outcome.specs.player.Naming.{times};
ghost use Rattle.dsql_run_outcome.specs.player.Playing.{IsAt, IsReady};
ghost use Rattle.dsql_run_outcome.specs.player_wires.Told.{SameAbility, with_told};
ghost use Rattle.dsql_run_outcome.specs.script_source.Racing.{may_race};
ghost use Rattle.dsql_run_outcome.specs.script_source.Stops.{IsReadStop};

use crate::closing::is_halted;
use crate::taking_up::{Limits, limits_of, take_up};
use dsql_run_outcome::{
    Clock, Fleet, Gate, Halt, Line, Past, Player, Raced, ReadScript, Stop, race, set_limits,
    stop_of_halt,
};
use std::alloc::Global;
use std::sync::Wait;
use std::thread::Threads;

/// A race that is over: the player with its whole history, and what stopped the run, if anything did.
#[derive(Drop)]
pub(crate) struct RacedLines {
    pub player: Player,
    pub stopped: Result<(), Stop>,
}

/// Races the lines of a script that were read. If memory was wanting as they were read, races none of them.
pub(crate) fn race_read<F: Fleet, C: Clock, G: Gate, R: Threads + Wait + Sync>(
    rt: &R,
    alloc: Global,
    player: Player,
    read: ReadScript,
    fleet: &mut F,
    clock: &mut C,
    gate: &G,
) -> RacedLines
    requires ready { IsReady player }
    requires begun { player.past ≡ Run 1 (F.ability fleet.old) ∷ [] }
    requires at { IsAt (just_begun (Run 1 (F.ability fleet.old))) player }
    requires whole { player.trimmed ≡ 0 }
    requires unnamed { (label : List ℕ) → times label player.past player.seats ≡ 0 }
    requires may_race { list_all may_race read.lines.items ≡ true }
    requires once { (label : List ℕ) → sum_by (times_in label) read.lines.items ≤ 1 }
    requires readable { IfErr read.stopped IsReadStop }
    ensures raced { LinesRaced result.stopped (Run 1 (F.ability fleet.old)) read.lines.items result.player.past
        (F.told fleet.old) (F.told fleet.new) }
    ensures same { ran_out result.stopped ≡ true → result.stopped ≡ read.stopped }
    ensures kept { ran_out read.stopped ≡ false → result.stopped ≡ read.stopped }
    ensures whole { result.player.trimmed ≡ 0 }
    ensures able { SameAbility F.Fleet fleet.old fleet.new }
{
    let ReadScript { lines, stopped } = read;
    if is_halted(&stopped) {
        return RacedLines { player, stopped };
    }
    let Raced {
        player,
        stopped: raced,
    } = race_lines(rt, alloc, player, lines, fleet, clock, gate);
    match raced {
        Ok(()) => RacedLines { player, stopped },
        Err(halt) => RacedLines {
            player,
            stopped: Err(stop_of_halt(halt)),
        },
    }
}

/// Races the lines of a script, the oldest first.
fn race_lines<F: Fleet, C: Clock, G: Gate, R: Threads + Wait + Sync>(
    rt: &R,
    alloc: Global,
    player: Player,
    lines: Vec<Line>,
    fleet: &mut F,
    clock: &mut C,
    gate: &G,
) -> Raced
    requires ready { IsReady player }
    requires begun { player.past ≡ Run 1 (F.ability fleet.old) ∷ [] }
    requires at { IsAt (just_begun (Run 1 (F.ability fleet.old))) player }
    requires whole { player.trimmed ≡ 0 }
    requires unnamed { (label : List ℕ) → times label player.past player.seats ≡ 0 }
    requires may_race { list_all may_race lines.items ≡ true }
    requires once { (label : List ℕ) → sum_by (times_in label) lines.items ≤ 1 }
    ensures raced { LinesRaced (stop_of result.stopped) (Run 1 (F.ability fleet.old)) lines.items result.player.past
        (F.told fleet.old) (F.told fleet.new) }
    ensures whole { result.player.trimmed ≡ 0 }
    ensures able { SameAbility F.Fleet fleet.old fleet.new }
{
    let Ok(limits) = limits_of(alloc, &lines) else {
        return Raced {
            player,
            stopped: Err(Halt::Memory),
        };
    };
    let mut player = player;
    let script = Past::new().then_all(&lines);
    match take_up(&mut player, lines, fleet) {
        Ok(()) => {
            player.release();
            race_kept(rt, alloc, player, script, limits, fleet, clock, gate)
        }
        Err(halt) => Raced {
            player,
            stopped: Err(halt),
        },
    }
}

/// Races the lines that the clients keep. Sets the limits before the first line of a client first. `lines` are the
/// lines of the script, newest first, for proofs alone.
fn race_kept<F: Fleet, C: Clock, G: Gate, R: Threads + Wait + Sync>(
    rt: &R,
    alloc: Global,
    player: Player,
    lines: Past<Line>,
    limits: Limits,
    fleet: &mut F,
    clock: &mut C,
    gate: &G,
) -> Raced
    requires ready { IsReady player }
    requires begun { player.past ≡ Run 1 (F.ability fleet.old) ∷ [] }
    requires at { IsAt (resting (reverse lines.items) player) player }
    requires whole { player.trimmed ≡ 0 }
    requires limits { limits.first.items ++ limits.later.items ≡ settings_of (reverse lines.items) }
    requires first { limits.first.items ≡ settings_first (reverse lines.items) }
    ensures raced { (first : Option FleetTold)
        → F.told fleet.old ≡ with_told (plans_first (reverse lines.items)) first (Run 1 (F.ability fleet.old) ∷ [])
        → LinesRaced (stop_of result.stopped) (Run 1 (F.ability fleet.old)) (reverse lines.items) result.player.past
        first (F.told fleet.new) }
    ensures whole { result.player.trimmed ≡ 0 }
    ensures able { SameAbility F.Fleet fleet.old fleet.new }
{
    let mut player = player;
    let Limits {
        first,
        later,
        timed,
    } = limits;
    match set_limits(&mut player, &lines, first) {
        Ok(()) => race(rt, alloc, player, lines, later, fleet, clock, timed, gate),
        Err(halt) => Raced {
            player,
            stopped: Err(halt),
        },
    }
}

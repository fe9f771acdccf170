//! Carries out one line of a script and writes its events.
ghost use Rattle.std.specs.Prelude.{◌≡◌, ◌≤◌, ◌+◌, ◌++◌, ℕ, ◌∷◌, [], List, true, false, length, Err, IfErr, is_some};
ghost use Rattle.dsql_run_outcome.specs.driver.declared.caps.Caps.{Caps};
ghost use Rattle.dsql_run_outcome.specs.history.declared.event.Event.TheVariants.{Run};
ghost use Rattle.dsql_run_outcome.specs.follows.declared.line.Line.{Line as Said};
ghost use Rattle.dsql_run_outcome.specs.follows.Follows.{after};
ghost use Rattle.dsql_run_outcome.specs.follows.Labels.{times_in};
ghost use Rattle.dsql_run_outcome.specs.follows.Moments.{Moment};
ghost use Rattle.dsql_run_outcome.specs.follows.Sentences.{Part};
ghost use Rattle.dsql_run_outcome.specs.Followed.{FollowsSoFar, StopsShort};
ghost use Rattle.dsql_run_outcome.specs.Playing.{RunsOn, WritesLine};
ghost use Rattle.dsql_run_outcome.specs.Runs.{Between, IsPlayStop, is_write_fault, ran_out};
ghost use Rattle.dsql_run_outcome.specs.player.Carried.{Carries, StopsInLine};
ghost use Rattle.dsql_run_outcome.specs.player.Naming.{MakeOnce, times};
ghost use Rattle.dsql_run_outcome.specs.player.Planned.{plans_of};
ghost use Rattle.dsql_run_outcome.specs.player.Playing.{IsAt};
ghost use Rattle.dsql_run_outcome.specs.laws_steps.Groups.{most_events};
ghost use Rattle.dsql_run_outcome.specs.stream.Faults.{CountsFaults};
ghost use Rattle.dsql_run_outcome.specs.player_wires.Stopped.{RecordsAtMost};
ghost use Rattle.dsql_run_outcome.specs.player_wires.Told.{FleetTells};

use crate::showing::show_history;
use dsql_run_outcome::{Fleet, Line, Player, Shown, Sink, Stop, Wires, carry_line, stop_of_halt};
use std::alloc::Global;

/// Carries out a line and writes its events.
pub(crate) fn play_line<K: Sink, F: Fleet>(
    alloc: Global,
    player: &mut Player,
    wires: &mut Wires<F::Wire>,
    shown: &mut Shown,
    output: &mut K,
    fleet: &mut F,
    line: Line,
) -> Result<(), Stop>
    requires between { Between F.Wire.told (is_some (F.told fleet.old)) player.old wires.old }
    requires shown { shown.old ≡ length player.old.past }
    requires names { MakeOnce (λ label. times_in label line) player.old.past player.old.seats }
    requires trimmed { player.old.trimmed ≤ shown.old }
    ensures between { ran_out result ≡ true → Between F.Wire.told (is_some (F.told fleet.new)) player.new wires.new }
    ensures carries { ran_out result ≡ true → (m : Moment) → IsAt m player.old → Carries m line player.old player.new }
    ensures stops { ran_out result ≡ false → (m : Moment) → IsAt m player.old
        → StopsInLine m line player.old.past player.new.past }
    ensures short { ran_out result ≡ false → (caps : Caps) (lines : List Said) (parts : List Part)
        → FollowsSoFar (Run 1 caps) lines parts player.old.past → IsAt (after (Run 1 caps) parts) player.old
        → StopsShort (Run 1 caps) (lines ++ line ∷ []) player.new.past }
    ensures told { ran_out result ≡ true
        → FleetTells F.Wire.told (plans_of line player.old.past) (F.told fleet.old)
        (F.told fleet.new) player.old.past player.new.past wires.old wires.new }
    ensures asked { RecordsAtMost F.Wire.told (plans_of line player.old.past) (F.told fleet.old)
        (F.told fleet.new) player.old.past player.new.past wires.old wires.new }
    ensures named { ran_out result ≡ true → (label : List ℕ) → times label player.new.past player.new.seats
        ≡ times_in label line + times label player.old.past player.old.seats }
    ensures writes { WritesLine result player.old.past player.new.past (K.written output.old) shown.new
        (K.written output.new) }
    ensures trimmed { player.new.trimmed ≡ player.old.trimmed }
    ensures least { player.new.trimmed ≤ shown.new }
    ensures kinds { IfErr result IsPlayStop }
    ensures faults { CountsFaults (is_write_fault result) (K.faults output.old) (K.faults output.new) }
    ensures full { result ≡ Err Stop.Full → most_events ≤ length player.new.past }
    ensures on { RunsOn F.Fleet fleet.old fleet.new player.old.past player.new.past }
{
    match carry_line(player, wires, fleet, line) {
        Ok(()) => show_history(alloc, player, shown, output),
        Err(halt) => Err(stop_of_halt(halt)),
    }
}

//! The end of a run.
ghost use Rattle.std.specs.Prelude.{◌≡◌, ◌≤◌, ℕ, true, false, length, reverse, OnOk, OnErr, is_some};
ghost use Rattle.dsql_run_outcome.specs.history.Legal.{Legal};
ghost use Rattle.dsql_run_outcome.specs.history.Readers.Journals.{journal};
ghost use Rattle.dsql_run_outcome.specs.follows.Moments.{Moment};
ghost use Rattle.dsql_run_outcome.specs.Playing.{IsOver, RunsOn};
ghost use Rattle.dsql_run_outcome.specs.Runs.{Between, ran_out};
ghost use Rattle.dsql_run_outcome.specs.player.Carried.{CarriesEnd, StopsInEnd};
ghost use Rattle.dsql_run_outcome.specs.player.Playing.{IsAt};
ghost use Rattle.dsql_run_outcome.specs.laws_steps.Groups.{most_events};
ghost use Rattle.dsql_run_outcome.specs.player_wires.Stopped.{GivesAllBack, RecordsJournal};
ghost use Rattle.dsql_run_outcome.specs.player_wires.Told.{FleetTellsOn, retired_from};
ghost use Rattle.dsql_run_outcome.specs.player_wires.WiresFit.{is_wired, slot};

use dsql_run_outcome::{Fleet, Player, Stop, Wires, carry_end, retire_all, stop_of_halt};

/// Ends the run: shuts every connection and gives all wires back to the fleet.
fn end_run<F: Fleet>(player: &mut Player, wires: Wires<F::Wire>, fleet: &mut F) -> Result<(), Stop>
    requires between { Between F.Wire.told (is_some (F.told fleet.old)) player.old wires }
    ensures halts { OnErr result (ran_out result ≡ false) }
    ensures carries { OnOk result ((m : Moment) → IsAt m player.old → CarriesEnd m player.old.past player.new.past) }
    ensures stops { OnErr result ((m : Moment) → IsAt m player.old → StopsInEnd m player.old.past player.new.past) }
    ensures over { OnOk result (IsOver player.new.past) }
    ensures told { OnOk result (FleetTellsOn F.Wire.told (F.told fleet.old)
        (F.told fleet.new) player.old.past player.new.past wires) }
    ensures unwired { OnOk result ((c : ℕ) → is_wired (journal player.new.past c) ≡ false) }
    ensures back { OnErr result (GivesAllBack F.Wire.told (F.told fleet.old)
        (F.told fleet.new) player.old.past player.new.past wires) }
    ensures trimmed { player.new.trimmed ≡ player.old.trimmed }
    ensures full { result ≡ Err Stop.Full → most_events ≤ length player.new.past }
    ensures on { RunsOn F.Fleet fleet.old fleet.new player.old.past player.new.past }
{
    let mut wires = wires;
    let carried = carry_end(player, &mut wires, fleet);
    retire_all(wires, fleet);
    match carried {
        Ok(()) => Ok(()),
        Err(halt) => Err(stop_of_halt(halt)),
    }
}

/// Ends a run whose lines were played. If the run can't be carried on, it only gives the wires back.
pub(crate) fn close<F: Fleet>(
    player: &mut Player,
    wires: Wires<F::Wire>,
    fleet: &mut F,
    played: Result<(), Stop>,
) -> Result<(), Stop>
    requires between { ran_out played ≡ true → Between F.Wire.told (is_some (F.told fleet.old)) player.old wires }
    requires full { played ≡ Err Stop.Full → most_events ≤ length player.old.past }
    requires legal { Legal player.old.past }
    ensures same { ran_out result ≡ true → result ≡ played }
    ensures kept { ran_out played ≡ false → result ≡ played }
    ensures carries { ran_out result ≡ true → (m : Moment) → IsAt m player.old
        → CarriesEnd m player.old.past player.new.past }
    ensures stops { ran_out played ≡ true → ran_out result ≡ false → (m : Moment) → IsAt m player.old
        → StopsInEnd m player.old.past player.new.past }
    ensures over { ran_out result ≡ true → IsOver player.new.past }
    ensures told { ran_out result ≡ true
        → FleetTellsOn F.Wire.told (F.told fleet.old) (F.told fleet.new) player.old.past player.new.past wires }
    ensures unwired { ran_out result ≡ true → (c : ℕ) → is_wired (journal player.new.past c) ≡ false }
    ensures back { ran_out played ≡ true → ran_out result ≡ false
        → GivesAllBack F.Wire.told (F.told fleet.old) (F.told fleet.new) player.old.past player.new.past wires }
    ensures given_back { ran_out played ≡ false → F.told fleet.new
        ≡ retired_from F.Wire.told (reverse wires) (F.told fleet.old) }
    ensures exact { ran_out played ≡ false → (c : ℕ) → RecordsJournal F.Wire.told (slot wires c) }
    ensures stays { ran_out played ≡ false → player.new.past ≡ player.old.past }
    ensures trimmed { player.new.trimmed ≡ player.old.trimmed }
    ensures full { result ≡ Err Stop.Full → most_events ≤ length player.new.past }
    ensures on { RunsOn F.Fleet fleet.old fleet.new player.old.past player.new.past }
{
    if is_halted(&played) {
        retire_all(wires, fleet);
        return played;
    }
    end_run(player, wires, fleet)?;
    played
}

/// Is true if a run can't be carried on.
pub(crate) fn is_halted(played: &Result<(), Stop>) -> bool
    ensures halts { result ≡ true → ran_out played.now ≡ false }
    ensures goes_on { result ≡ false → ran_out played.now ≡ true }
{
    matches!(played, Err(Stop::Memory | Stop::Full))
}

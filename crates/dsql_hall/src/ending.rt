//! The end of a race, after its threads have returned.
ghost use Rattle.std.specs.Prelude.{◌≡◌, ◌≤◌, ◌++◌, ℕ, List, [], None, true, false, is_some, reverse, length, Err, OnOk};
ghost use Rattle.std.specs.List.{list_all};
ghost use Rattle.dsql_hall_steps.specs.history.declared.event.Event.{Event};
ghost use Rattle.dsql_hall_steps.specs.history.Legal.{Legal};
ghost use Rattle.dsql_hall_steps.specs.history.Readers.Course.{has_ended};
ghost use Rattle.dsql_hall_steps.specs.history.Rules.House.{is_quiet};
ghost use Rattle.dsql_hall_steps.specs.laws_ends.Over.{IsOver};
ghost use Rattle.dsql_hall_steps.specs.laws_steps.Groups.{most_events};
ghost use Rattle.dsql_hall_steps.specs.House.{IsOwn};
ghost use Rattle.dsql_hall_steps.specs.Limits.{SetsFirst, are_set_first, set_in, sets_limit, settings_of};
ghost use Rattle.dsql_hall_steps.specs.Racing.{Races, RacesAll, resting};
ghost use Rattle.dsql_hall_steps.specs.player.Playing.{IsAt, IsReady};
ghost use Rattle.dsql_hall_steps.specs.player_wires.Told.{FleetTells, SameAbility};
ghost use Rattle.dsql_hall_steps.specs.player_wires.WiresFit.{WiresFit, slot};
ghost use Rattle.dsql_hall.specs.Fleets.{RecordsOn};
ghost use Rattle.dsql_hall.specs.Ends.{EndsRace};
ghost use Rattle.dsql_hall.specs.Raced.{SetsSome, ends_last};

use crate::limits::set_limits;
use crate::raced::Raced;
use crate::shared::SharedHall;
use dsql_hall_steps::{
    Bond, Closed, Fleet, Halt, Line, Player, Race, Wires, carry_end, retire_all,
};
use dsql_history::{Control, Past};
use std::collections::VecDeque;

/// Ends a race whose threads have returned, and gives all wires back to the fleet. `cut` says whether the run stopped
/// at one of the layer's driver calls. Work that is still out stops the race for want of memory. `lines` are the lines
/// of the script, newest first, for proofs alone.
pub(crate) fn end_race<K: Race, F: Fleet>(
    shared: SharedHall<K, F::Wire>,
    own: Bond<K>,
    cut: bool,
    lines: &Past<Line>,
    fleet: &mut F,
) -> Raced
    requires own { IsOwn K.terms.made own }
    requires telling { cut ≡ false → is_some (F.told fleet.old) ≡ K.terms.telling }
    requires lines { K.terms.lines ≡ reverse lines.now.items }
    ensures ends { EndsRace K.terms.run K.terms.lines result.stopped result.player }
    ensures uncut { OnOk result.stopped (cut ≡ false) }
    ensures told { OnOk result.stopped
        (RecordsOn K.terms.made (F.told fleet.old) (F.told fleet.new) own.past result.player.past) }
    ensures able { SameAbility F.Fleet fleet.old fleet.new }
{
    let Closed {
        mut player,
        mut wires,
        settings,
        stopped,
    } = shared.close(own);
    match stopped {
        None if !cut => {
            let stopped = run_through(&mut player, lines, settings, &mut wires, fleet);
            retire_all(wires, fleet);
            Raced { player, stopped }
        }
        stopped => {
            retire_all(wires, fleet);
            Raced {
                player,
                stopped: Err(stopped.unwrap_or(Halt::Memory)),
            }
        }
    }
}

/// Sets the limits, lets each client enter its lines and go on, and ends the run.
fn run_through<F: Fleet>(
    player: &mut Player,
    lines: &Past<Line>,
    settings: VecDeque<Control>,
    wires: &mut Wires<F::Wire>,
    fleet: &mut F,
) -> Result<(), Halt>
    requires ready { IsReady player.old }
    requires running { has_ended player.old.past ≡ false }
    requires at { IsAt (resting (reverse lines.now.items) player.old) player.old }
    requires limits { list_all sets_limit settings.items ≡ true }
    requires wires { WiresFit F.Wire.told (is_some (F.told fleet.old)) player.old.past wires.old }
    ensures all { OnOk result ((run : Event) → Races run (reverse lines.now.items) player.old.past
        → RacesAll run (reverse lines.now.items) player.new.past) }
    ensures some { (run : Event) → Races run (reverse lines.now.items) player.old.past
        → Races run (reverse lines.now.items) player.new.past }
    ensures set { OnOk result (set_in player.new.past ≡ set_in player.old.past ++ settings.items) }
    ensures some_set { SetsSome (set_in player.old.past ++ settings.items) player.new.past }
    ensures first { (many : ℕ) → SetsFirst many player.old.past → are_set_first many player.new.past ≡ true }
    ensures last { set_in player.old.past ++ settings.items ≡ settings_of (reverse lines.now.items)
        → ends_last (reverse lines.now.items) player.new.past ≡ true }
    ensures over { OnOk result (IsOver player.new.past) }
    ensures ended { OnOk result (has_ended player.new.past ≡ true) }
    ensures quiet { OnOk result (is_quiet player.new.past ≡ true) }
    ensures empty { OnOk result ((c : ℕ) → slot wires.new c ≡ None) }
    ensures told { OnOk result (FleetTells F.Wire.told [] (F.told fleet.old)
        (F.told fleet.new) player.old.past player.new.past wires.old wires.new) }
    ensures legal { Legal player.new.past }
    ensures full { result ≡ Err Halt.Full → most_events ≤ length player.new.past }
    ensures trimmed { player.new.trimmed ≡ player.old.trimmed }
    ensures able { SameAbility F.Fleet fleet.old fleet.new }
{
    set_limits(player, lines, settings)?;
    carry_end(player, wires, fleet)
}

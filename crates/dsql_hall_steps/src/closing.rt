//! Opens a hall before the threads of its race, and closes it after them.
ghost use Rattle.std.specs.Prelude.{◌≡◌, ◌≤◌, ◌∷◌, [], None, Some, length};
ghost use Rattle.dsql_engine_laws.specs.history.Readers.Journals.{journal};
ghost use Rattle.dsql_engine_laws.specs.laws_steps.Groups.{most_events};
ghost use Rattle.dsql_player_wires.specs.WiresFit.{PlansFit, WiresFit};
ghost use Rattle.dsql_player.specs.Playing.{IsAt, IsReady};
ghost use Rattle.dsql_hall_steps.specs.Halls.{Keeps, house};
ghost use Rattle.dsql_hall_steps.specs.House.{HasParts, IsClosed, IsOwn, first_hall, own_work, stopped_by};
ghost use Rattle.dsql_hall_steps.specs.Racing.{resting};

use crate::hall::Hall;
use crate::race::Race;
use dsql_engine_laws::{Control, Wire};
use dsql_hall_bonds::{Bond, Cell, Keeper, WorkName};
use dsql_player::{Halt, Player};
use dsql_player_wires::Wires;
use std::collections::VecDeque;
use std::marker::Brand;

/// What a hall held: the player, the wires, the limits that weren't set, and what stopped the run. It can't be dropped,
/// because its wires can't.
pub struct Closed<W: Wire> {
    pub player: Player,
    pub wires: Wires<W>,
    pub settings: VecDeque<Control>,
    pub stopped: Option<Halt>,
}

/// Returns the house's own bond, which is out from then on.
fn tie_own<K: Race, N: WorkName>(keeper: &mut Keeper<K>, cell: &Cell, player: &Player) -> Bond<K>
    requires cell { cell.now ≡ K.cell }
    requires work { N.work ≡ own_work player.now.past }
    requires none { keeper.old ≡ [] }
    ensures out { keeper.new ≡ own_work player.now.past ∷ [] }
    ensures bond { result ≡ own_work player.now.past }
{
    keeper.tie::<N>(cell)
}

/// Returns what stopped the run. If nothing did, work besides the house's own that is still out does, for want of
/// memory.
fn stopped_by(stopped: Option<Halt>, away: u64) -> Option<Halt>
    ensures { result ≡ stopped_by stopped away }
{
    if stopped.is_none() && away != 1 {
        return Some(Halt::Memory);
    }
    stopped
}

impl<K: Race, W: Wire> Hall<K, W> {
    /// Returns a hall of a run that has begun and whose lines were read, with the house's own bond.
    pub fn open(
        cell: &Cell,
        mut keeper: Keeper<K>,
        player: Player,
        wires: Wires<W>,
        settings: VecDeque<Control>,
    ) -> (Hall<K, W>, Bond<K>)
        requires cell { cell.now ≡ K.cell }
        requires none { keeper ≡ [] }
        requires ready { IsReady player }
        requires at { IsAt (resting K.terms.lines player) player }
        requires keeps { Keeps K.terms player settings.items }
        requires wires { WiresFit W.told K.terms.telling player.past wires }
        requires plans { PlansFit W.told K.terms.made player.past wires }
        requires silent { journal player.past house ≡ [] }
        ensures own { IsOwn K.terms.made result.1 }
        ensures past { result.1.past ≡ player.past }
        ensures hall { result.0 ≡ first_hall player wires settings.items }
    {
        let bond = tie_own::<K, Brand>(&mut keeper, cell, &player);
        let hall = Hall {
            player,
            wires,
            keeper,
            away: 1,
            settings,
            stopped: None,
            chore: None,
            resting: false,
        };
        (hall, bond)
    }

    /// Closes a hall whose threads have ended. If nothing stopped the run and no other work than the house's own is
    /// out, the wires that are left fit the history. Work that is still out stops the run for want of memory.
    pub fn close(self, cell: &Cell, own: Bond<K>) -> Closed<W>
        requires cell { cell.now ≡ K.cell }
        requires own { IsOwn K.terms.made own }
        ensures parts { HasParts self result.player result.wires result.settings.items result.stopped }
        ensures keeps { Keeps K.terms result.player result.settings.items }
        ensures full { result.stopped ≡ Some Halt.Full → most_events ≤ length result.player.past }
        ensures well { result.stopped ≡ None → IsClosed W.told K.terms own.past result.player result.wires }
    {
        let Hall {
            player,
            wires,
            mut keeper,
            away,
            settings,
            stopped,
            chore: _,
            resting: _,
        } = self;
        keeper.untie(cell, own);
        let stopped = stopped_by(stopped, away);
        Closed {
            player,
            wires,
            settings,
            stopped,
        }
    }
}

//! The hall: what is kept under the one lock of a race.
use crate::race::Race;
use dsql_engine_laws::{Control, Wire};
use dsql_hall_bonds::Keeper;
use dsql_player::{Halt, Player};
use dsql_player_wires::Wires;
use std::collections::VecDeque;
use std::marker::Model;

/// What is kept under the one lock of a race. Contracts see an `InHall`, and each hall is as `IsHall` says. It can't be
/// dropped, because its wires can't.
pub struct Hall<K: Race, W: Wire> {
    pub(crate) player: Player,
    /// The wires that are at home. The slot of a wire that is out is empty.
    pub(crate) wires: Wires<W>,
    /// The bonds of the work that is out.
    pub(crate) keeper: Keeper<K>,
    /// How much work is out, with the house's own.
    pub(crate) away: u64,
    /// The limits that are still to be set.
    pub(crate) settings: VecDeque<Control>,
    /// Why the run stopped before its end, if it did.
    pub(crate) stopped: Option<Halt>,
    /// The connection of the layer's own driver call that is out.
    pub(crate) chore: Option<u32>,
    /// Whether only the end is left.
    pub(crate) resting: bool,
}

impl<K: Race, W: Wire> Model for Hall<K, W> {
    ghost use Rattle.dsql_hall_steps.specs.Halls.{InHall, IsHall};

    ghost Value = { InHall W };

    ghost view = { λ h. record {
      player = h.player;
      slots = h.wires;
      out = h.keeper;
      away = h.away;
      settings = h.settings.items;
      stopped = h.stopped;
      chore = h.chore;
      resting = h.resting;
    } };

    ghost invariant = { λ h. IsHall W.told K.terms (record {
      player = h.player;
      slots = h.wires;
      out = h.keeper;
      away = h.away;
      settings = h.settings.items;
      stopped = h.stopped;
      chore = h.chore;
      resting = h.resting;
    }) };
}

//! What the house brings back into the hall: the answers to the layer's own driver calls.
ghost use Rattle.std.specs.Prelude.{◌≡◌, ◌≢◌, ◌≤◌, ◌∷◌, Err, None, Some, length, OnOk, OnErr};
ghost use Rattle.dsql_engine_laws.specs.follows.Moments.{Moment};
ghost use Rattle.dsql_engine_laws.specs.laws_steps.Groups.{after_heard, most_events};
ghost use Rattle.dsql_player.specs.Apart.{AnswersChore};
ghost use Rattle.dsql_player.specs.Keeping.{SameCourse};
ghost use Rattle.dsql_player.specs.Playing.{IsAt, IsReady};
ghost use Rattle.dsql_player.specs.Stepping.{IsChoreOn, TakesStep};
ghost use Rattle.dsql_hall_bonds.specs.Work.{find, without};
ghost use Rattle.dsql_hall_steps.specs.Halls.{house};
ghost use Rattle.dsql_hall_steps.specs.Hearing.{DropsAnswer, FillsSlot, TakesChoreIn};
ghost use Rattle.dsql_hall_steps.specs.Hearing.{brought_home, struck_off, without_memory};
ghost use Rattle.dsql_hall_steps.specs.House.{IsOwn, IsShutting, TellsConnect, TellsShut, own_work};

use crate::errand::Back;
use crate::hall::Hall;
use crate::opening::{Opened, Unopened};
use crate::race::Race;
use dsql_engine_laws::{Heard, Wire};
use dsql_hall_bonds::{Bond, Cell, Keeper, WorkName};
use dsql_player::{Halt, Player};
use dsql_player_wires::ThinWire;
use std::marker::Brand;

/// Takes in the answer to one of the layer's own driver calls, if the run has room for its events.
fn take_in(player: &mut Player, heard: Heard) -> Result<(), Halt>
    requires ready { IsReady player.old }
    requires answers { AnswersChore player.old heard }
    ensures player { OnOk result (player.new ≡ record player.old { past = after_heard player.old.past heard }) }
    ensures step { OnOk result ((m : Moment) → IsAt m player.old
        → TakesStep m player.old player.new (IsChoreOn (Some heard.conn))) }
    ensures ready { OnOk result (IsReady player.new) }
    ensures course { OnOk result (SameCourse player.old player.new) }
    ensures kept { OnErr result (player.new ≡ player.old) }
    ensures full { result ≡ Err Halt.Full → most_events ≤ length player.new.past }
{
    player.check_room()?;
    player.hear_chore(heard)
}

/// Takes back the house's bond, and returns it with the present history.
fn renew<K: Race, N: WorkName>(
    keeper: &mut Keeper<K>,
    cell: &Cell,
    player: &Player,
    own: Bond<K>,
) -> Bond<K>
    requires cell { cell.now ≡ K.cell }
    requires work { N.work ≡ own_work player.now.past }
    requires own { own.conn ≡ house }
    ensures was_out { find house keeper.old ≡ Some own }
    ensures out { keeper.new ≡ own_work player.now.past ∷ without house keeper.old }
    ensures bond { result ≡ own_work player.now.past }
{
    keeper.untie(cell, own);
    keeper.tie::<N>(cell)
}

impl<K: Race, W: Wire> Hall<K, W> {
    /// Takes in the answer to a Shut, and returns the wire, which is to be given back to the fleet. If the run is
    /// stopped, the wire stays in the hall, and the house's bond is as it was.
    pub fn hear_shut(
        &mut self,
        cell: &Cell,
        own: Bond<K>,
        back: Back<K, W>,
    ) -> (Bond<K>, Option<ThinWire<W>>)
        requires cell { cell.now ≡ K.cell }
        requires own { IsOwn K.terms.made own }
        requires shut { IsShutting back.work }
        ensures own { IsOwn K.terms.made result.0 }
        ensures wire { self.new.stopped ≡ None → result.1 ≡ Some back.wire }
        ensures told { self.new.stopped ≡ None
            → TellsShut W.told K.terms.telling K.terms.made own.past result.0.past back.wire }
        ensures stays { self.new.stopped ≢ None → (result.0 ≡ own) × (result.1 ≡ None) }
        ensures heard { self.new.stopped ≡ None
            → TakesChoreIn back.entry (struck_off back.work self.old) self.new result.0 }
        ensures dropped { self.new.stopped ≢ None
            → DropsAnswer (brought_home back.work back.wire self.old) self.new }
    {
        let Back {
            heard,
            client: _,
            wire,
            bond,
        } = back;
        let conn = heard.entry().conn;
        self.keeper.untie(cell, bond);
        self.away -= 1;
        if self.stopped.is_some() {
            self.wires.put(conn, wire);
            return (own, None);
        }
        match take_in(&mut self.player, heard) {
            Ok(()) => {
                self.chore = None;
                let own = renew::<K, Brand>(&mut self.keeper, cell, &self.player, own);
                (own, Some(wire))
            }
            Err(halt) => {
                self.stopped = Some(halt);
                self.wires.put(conn, wire);
                (own, None)
            }
        }
    }

    /// Takes in the answer to a Connect, and puts the wire into its slot. If the run is stopped, the house's bond is as
    /// it was.
    pub fn hear_opening(&mut self, cell: &Cell, own: Bond<K>, opened: Opened<K, W>) -> Bond<K>
        requires cell { cell.now ≡ K.cell }
        requires own { IsOwn K.terms.made own }
        ensures own { IsOwn K.terms.made result }
        ensures told { self.new.stopped ≡ None → TellsConnect K.terms.made own.past result.past opened.entry }
        ensures stays { self.new.stopped ≢ None → result ≡ own }
        ensures slot { FillsSlot opened.work.conn opened.wire self.old.slots self.new.slots }
        ensures heard { self.new.stopped ≡ None → TakesChoreIn opened.entry
            (record (struck_off opened.work self.old) { slots = self.new.slots }) self.new result }
        ensures dropped { self.new.stopped ≢ None → DropsAnswer
            (record (struck_off opened.work self.old) { slots = self.new.slots }) self.new }
    {
        let Opened { heard, wire, bond } = opened;
        let conn = heard.entry().conn;
        self.keeper.untie(cell, bond);
        self.away -= 1;
        self.wires.put_any(conn, wire);
        if self.stopped.is_some() {
            return own;
        }
        match take_in(&mut self.player, heard) {
            Ok(()) => {
                self.chore = None;
                renew::<K, Brand>(&mut self.keeper, cell, &self.player, own)
            }
            Err(halt) => {
                self.stopped = Some(halt);
                own
            }
        }
    }

    /// Stops the run, because memory was wanting for a Connect.
    pub fn hear_no_opening(&mut self, cell: &Cell, unopened: Unopened<K>)
        requires cell { cell.now ≡ K.cell }
        ensures stopped { self.new.stopped ≢ None }
        ensures struck { self.new ≡ without_memory (struck_off unopened self.old) }
    {
        let Unopened { conn: _, bond } = unopened;
        self.keeper.untie(cell, bond);
        self.away -= 1;
        if self.stopped.is_none() {
            self.stopped = Some(Halt::Memory);
        }
    }
}

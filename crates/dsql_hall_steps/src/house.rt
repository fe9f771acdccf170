//! The steps of the house. It sets the present moment and the limits that are to come, and takes the layer's own driver
//! calls out of the hall.
ghost use Rattle.std.specs.Prelude.{◌≡◌, ◌<◌, List, [], None, Some, true, false, length, is_some, IfSome};
ghost use Rattle.dsql_engine_laws.specs.driver.Kinds.{is_connect, is_shut};
ghost use Rattle.dsql_engine_laws.specs.going.Permits.{chore_permit};
ghost use Rattle.dsql_engine_laws.specs.laws_steps.Groups.{most_events};
ghost use Rattle.dsql_engine_laws.specs.history.Rules.House.{chore_due};
ghost use Rattle.dsql_hall_steps.specs.House.{ComesFirst};
ghost use Rattle.dsql_hall_steps.specs.HouseSteps.{HouseDoes, Ticks};

use crate::chore::Chore;
use crate::clients::tie;
use crate::errand::Errand;
use crate::hall::Hall;
use crate::opening::Opening;
use crate::race::Race;
use dsql_engine_laws::{Control, DriverCall, Permit, Wire};
use dsql_hall_bonds::Cell;
use dsql_player::Halt;
use std::collections::VecDeque;
use std::marker::Brand;

/// Returns the first of these, if there is one.
fn first(settings: &VecDeque<Control>) -> Option<Control>
    ensures some { IfSome result (λ control. (later : List Control) × ComesFirst control settings.now.items later) }
    ensures none { result ≡ None → settings.now.items ≡ [] }
{
    settings.front().copied()
}

impl<K: Race, W: Wire> Hall<K, W> {
    /// Is true if the run has stopped before its end.
    pub fn is_stopped(&self) -> bool
        ensures { result ≡ is_some self.now.stopped }
    {
        self.stopped.is_some()
    }

    /// Takes the house's next step. It sets the first of the limits that are to come. Otherwise it takes out the first
    /// of the layer's own driver calls, one at a time. If there is none and no client may go on, only the end is left.
    pub fn house_next(&mut self, cell: &Cell) -> Chore<K, W>
        requires cell { cell.now ≡ K.cell }
        ensures does { HouseDoes self.old self.new result }
    {
        if self.stopped.is_some() || self.resting {
            return Chore::Over;
        }
        if self.chore.is_some() {
            return Chore::Wait;
        }
        if let Err(halt) = self.player.check_room() {
            self.stopped = Some(halt);
            return Chore::Over;
        }
        if let Some(control) = first(&self.settings) {
            return self.set_limit(control);
        }
        match self.player.chore() {
            Some(permit) => self.send_chore(cell, permit),
            None => self.rest(),
        }
    }

    /// Sets the first of the limits that are to come.
    fn set_limit(&mut self, control: Control) -> Chore<K, W>
        requires goes_on { self.old.stopped ≡ None }
        requires free { self.old.chore ≡ None }
        requires room { length self.old.player.past < most_events }
        requires first { (later : List Control) × ComesFirst control self.old.settings later }
        ensures does { HouseDoes self.old self.new result }
    {
        match self.player.control(control) {
            Ok(()) => {
                let _set = self.settings.pop_front();
                Chore::Again
            }
            Err(halt) => {
                self.stopped = Some(halt);
                Chore::Over
            }
        }
    }

    /// Sets the present moment. A moment before the present one counts as the present one. If the run has stopped or
    /// only the end is left, changes nothing. If there is no room for a step, or no memory, the run stops.
    pub fn tick(&mut self, now: u64)
        ensures ticks { Ticks now self.old self.new }
    {
        if self.stopped.is_some() || self.resting {
            return;
        }
        if let Err(halt) = self.player.check_room() {
            self.stopped = Some(halt);
            return;
        }
        match self.player.control(Control::Tick(now)) {
            Ok(()) => {}
            Err(halt) => self.stopped = Some(halt),
        }
    }

    /// Takes out one of the layer's own driver calls. While the run goes on it opens or shuts a connection.
    fn send_chore(&mut self, cell: &Cell, permit: Permit) -> Chore<K, W>
        requires cell { cell.now ≡ K.cell }
        requires goes_on { self.old.stopped ≡ None }
        requires free { self.old.chore ≡ None }
        requires set { self.old.settings ≡ [] }
        requires first { chore_due self.old.player.past ≡ Some permit.conn }
        requires due { chore_permit self.old.player.past permit.conn ≡ Some permit }
        requires kind { is_connect permit.call ≡ false → is_shut permit.call ≡ false → ⊥ }
        ensures does { HouseDoes self.old self.new result }
    {
        match permit.call {
            DriverCall::Connect => self.send_connect(cell, permit),
            DriverCall::Shut => self.send_shut(cell, permit),
            _ => unreachable!(),
        }
    }

    /// Takes out a Connect. The slot of its wire is made before it goes.
    fn send_connect(&mut self, cell: &Cell, permit: Permit) -> Chore<K, W>
        requires cell { cell.now ≡ K.cell }
        requires goes_on { self.old.stopped ≡ None }
        requires free { self.old.chore ≡ None }
        requires set { self.old.settings ≡ [] }
        requires first { chore_due self.old.player.past ≡ Some permit.conn }
        requires due { chore_permit self.old.player.past permit.conn ≡ Some permit }
        requires connects { is_connect permit.call ≡ true }
        ensures does { HouseDoes self.old self.new result }
    {
        let conn = permit.conn;
        match self.wires.make_room(conn) {
            Ok(()) => {}
            Err(_) => {
                self.stopped = Some(Halt::Memory);
                return Chore::Over;
            }
        }
        let bond = tie::<K, Brand>(&mut self.keeper, cell, &self.player, &permit);
        self.away += 1;
        self.chore = Some(conn);
        Chore::Connect(Opening { permit, bond })
    }

    /// Takes out a Shut, with the wire of its connection.
    fn send_shut(&mut self, cell: &Cell, permit: Permit) -> Chore<K, W>
        requires cell { cell.now ≡ K.cell }
        requires goes_on { self.old.stopped ≡ None }
        requires free { self.old.chore ≡ None }
        requires set { self.old.settings ≡ [] }
        requires first { chore_due self.old.player.past ≡ Some permit.conn }
        requires due { chore_permit self.old.player.past permit.conn ≡ Some permit }
        requires shuts { is_shut permit.call ≡ true }
        ensures does { HouseDoes self.old self.new result }
    {
        let conn = permit.conn;
        let wire = self.wires.take(conn);
        let bond = tie::<K, Brand>(&mut self.keeper, cell, &self.player, &permit);
        self.away += 1;
        self.chore = Some(conn);
        Chore::Shut(Errand {
            permit,
            client: 0,
            wire,
            bond,
        })
    }

    /// Rests if no client may go on. Otherwise the house waits for the clients.
    fn rest(&mut self) -> Chore<K, W>
        requires goes_on { self.old.stopped ≡ None }
        requires set { self.old.settings ≡ [] }
        requires none { chore_due self.old.player.past ≡ None }
        ensures does { HouseDoes self.old self.new result }
    {
        if self.player.next_client().is_some() {
            return Chore::Wait;
        }
        self.resting = true;
        Chore::Over
    }
}

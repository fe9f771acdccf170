//! The steps of clients. A client enters its lines, wakes its call, and takes its driver calls out of the hall.
ghost use Rattle.std.specs.Prelude.{◌≡◌, ◌≢◌, ◌∷◌, ℕ, None, Some, true, false, is_some};
ghost use Rattle.dsql_engine_laws.specs.journal.Readers.{is_empty};
ghost use Rattle.dsql_engine_laws.specs.history.Readers.Calls.{is_busy};
ghost use Rattle.dsql_engine_laws.specs.history.Readers.Clients.{call_of};
ghost use Rattle.dsql_engine_laws.specs.laws_ends.Over.{may_move};
ghost use Rattle.dsql_player_wires.specs.Seats.{seat};
ghost use Rattle.dsql_hall_bonds.specs.Work.{find};
ghost use Rattle.dsql_hall_steps.specs.Steps.{DoesNext};

use crate::errand::Errand;
use crate::hall::Hall;
use crate::race::Race;
use crate::step::Step;
use dsql_engine_laws::{Permit, Wire};
use dsql_hall_bonds::{Bond, Cell, Keeper, WorkName};
use dsql_player::Player;
use std::marker::Brand;

/// Returns the bond of the driver call with this permit, which is out from then on.
pub(crate) fn tie<K: Race, N: WorkName>(
    keeper: &mut Keeper<K>,
    cell: &Cell,
    player: &Player,
    permit: &Permit,
) -> Bond<K>
    requires cell { cell.now ≡ K.cell }
    requires work { N.work ≡ record { conn = permit.now.conn; permit = permit.now; past = player.now.past } }
    requires free { find permit.now.conn keeper.old ≡ None }
    ensures out { keeper.new
        ≡ record { conn = permit.now.conn; permit = permit.now; past = player.now.past } ∷ keeper.old }
    ensures bond { result ≡ record { conn = permit.now.conn; permit = permit.now; past = player.now.past } }
{
    let _player = player;
    let _permit = permit;
    keeper.tie::<N>(cell)
}

impl<K: Race, W: Wire> Hall<K, W> {
    /// Takes the client's next step. A free client enters its first line. A call that has leave goes out with its
    /// driver call, and one that may move goes on. If there is no room for a step, or no memory, the run stops.
    pub fn next(&mut self, cell: &Cell, client: u8) -> Step<K, W>
        requires cell { cell.now ≡ K.cell }
        ensures next { DoesNext client self.old self.new result }
    {
        if self.stopped.is_some() || self.resting {
            return Step::Over;
        }
        if self.player.has_call(client) {
            self.go_on(cell, client)
        } else if self.player.has_kept(client) {
            self.enter(client)
        } else {
            Step::Over
        }
    }

    /// Enters the first kept line of a free client.
    fn enter(&mut self, client: u8) -> Step<K, W>
        requires runs { self.old.stopped ≡ None }
        requires free { is_busy client self.old.player.past ≡ false }
        requires kept { is_empty (seat self.old.player.seats client).kept ≡ false }
        ensures next { DoesNext client self.old self.new result }
    {
        if let Err(halt) = self.player.check_room() {
            self.stopped = Some(halt);
            return Step::Over;
        }
        match self.player.enter_kept(client) {
            Ok(()) => Step::Again,
            Err(halt) => {
                self.stopped = Some(halt);
                Step::Over
            }
        }
    }

    /// Lets a client's call go on, if it may.
    fn go_on(&mut self, cell: &Cell, client: u8) -> Step<K, W>
        requires cell { cell.now ≡ K.cell }
        requires runs { self.old.stopped ≡ None }
        requires busy { is_busy client self.old.player.past ≡ true }
        ensures next { DoesNext client self.old self.new result }
    {
        if self.player.has_leave(client) {
            self.send(cell, client)
        } else if self.player.may_move(client) {
            self.wake(client)
        } else {
            Step::Wait
        }
    }

    /// Lets a client's call go on that may move and has no leave.
    fn wake(&mut self, client: u8) -> Step<K, W>
        requires runs { self.old.stopped ≡ None }
        requires busy { is_busy client self.old.player.past ≡ true }
        requires parked { is_some (seat self.old.player.seats client).permit ≡ false }
        requires moves { may_move self.old.player.past self.old.player.flights (call_of self.old.player.past client)
            ≡ true }
        ensures next { DoesNext client self.old self.new result }
    {
        if let Err(halt) = self.player.check_room() {
            self.stopped = Some(halt);
            return Step::Over;
        }
        match self.player.wake(client) {
            Ok(_) => Step::Again,
            Err(halt) => {
                self.stopped = Some(halt);
                Step::Over
            }
        }
    }

    /// Takes out the driver call for which a client's call has leave.
    fn send(&mut self, cell: &Cell, client: u8) -> Step<K, W>
        requires cell { cell.now ≡ K.cell }
        requires runs { self.old.stopped ≡ None }
        requires busy { is_busy client self.old.player.past ≡ true }
        requires leave { is_some (seat self.old.player.seats client).permit ≡ true }
        ensures next { DoesNext client self.old self.new result }
    {
        if let Err(halt) = self.player.check_room() {
            self.stopped = Some(halt);
            return Step::Over;
        }
        match self.player.permit(client) {
            Ok(permit) => self.send_out(cell, client, permit),
            Err(halt) => {
                self.stopped = Some(halt);
                Step::Over
            }
        }
    }

    /// Takes out a client's driver call with the wire of its connection, if that is at home.
    fn send_out(&mut self, cell: &Cell, client: u8, permit: Permit) -> Step<K, W>
        requires cell { cell.now ≡ K.cell }
        requires runs { self.old.stopped ≡ None }
        requires busy { is_busy client self.old.player.past ≡ true }
        requires leave { (seat self.old.player.seats client).permit ≡ Some permit }
        ensures next { DoesNext client self.old self.new result }
    {
        if !self.wires.has(permit.conn) {
            return Step::Wait;
        }
        let wire = self.wires.take(permit.conn);
        let bond = tie::<K, Brand>(&mut self.keeper, cell, &self.player, &permit);
        self.away += 1;
        Step::Go(Errand {
            permit,
            client,
            wire,
            bond,
        })
    }
}

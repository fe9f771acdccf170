//! The house, which takes the layer's steps.
ghost use Rattle.std.specs.Prelude.{◌≡◌, false, is_some};
ghost use Rattle.dsql_hall_steps.specs.House.{IsOwn, IsShutting};
ghost use Rattle.dsql_hall.specs.Calls.{IsOfClient};
ghost use Rattle.dsql_hall.specs.Fleets.{KeepsHouse};

use crate::moments::Moments;
use crate::shared::{Locked, SharedHall};
use crate::turns::Turns;
use crate::waiting::HouseWait;
use dsql_hall_steps::{Bond, Chore, Errand, Fleet, Opening, Race, Step, Wire, retire_wire};
use dsql_history::{Clock, Gate};
use std::alloc::Global;
use std::sync::{MutexGuard, Wait};

/// The house: its bond, the fleet and the moments.
#[derive(Drop)]
pub(crate) struct House<'f, 'c, K: Race, F: Fleet, C: Clock> {
    pub(crate) own: Bond<K>,
    pub(crate) fleet: &'f mut F,
    pub(crate) moments: Moments<'c, C>,
    /// Whether nothing is left for the house to do.
    pub(crate) over: bool,
    /// Whether the answer to one of the layer's driver calls was dropped, because the run had stopped or stopped then.
    /// What the fleet records after that may be more than the history has.
    pub(crate) cut: bool,
}

/// Returns what the house waits for if it has no step to take. If it takes the steps of clients, or sets moments, any
/// change may let it go on.
fn house_wait<C: Clock>(turns: &Turns<'_>, moments: &Moments<'_, C>) -> HouseWait {
    if turns.is_empty() && !moments.are_needed() {
        HouseWait::ForStep
    } else {
        HouseWait::ForChange
    }
}

impl<K: Race, W: Wire> SharedHall<K, W> {
    /// Takes the house's steps until nothing is left for it to do, or the run stops. `clients` are those that have no
    /// thread.
    pub(crate) fn keep_house<'f, 'c, F: Fleet<Wire = W>, C: Clock, G: Gate, R: Wait>(
        &self,
        rt: &R,
        alloc: Global,
        gate: &G,
        clients: &[u8],
        house: House<'f, 'c, K, F, C>,
    ) -> House<'f, 'c, K, F, C>
        requires uncut { house.cut ≡ false }
        requires own { IsOwn K.terms.made house.own }
        requires telling { is_some (F.told house.fleet.now) ≡ K.terms.telling }
        ensures same { result.fleet.ghost_name ≡ house.entry.fleet.ghost_name }
        ensures keeps { KeepsHouse F.Fleet K.terms.made house.entry.fleet.now
            result.fleet.now house.entry.own result.own result.cut }
    {
        let mut house = house;
        let mut turns = Turns::new(clients);
        for _ in rt.forever() {
            house = self.step_house(rt, alloc, gate, &mut turns, house);
            if house.over || house.cut {
                return house;
            }
        }
        unreachable!()
    }

    /// Takes the layer's next step. If it has none to take, takes one of a client that has no thread. If all of those
    /// wait too, this waits until another thread wakes the house.
    fn step_house<'f, 'c, F: Fleet<Wire = W>, C: Clock, G: Gate, R: Wait>(
        &self,
        rt: &R,
        alloc: Global,
        gate: &G,
        turns: &mut Turns<'_>,
        mut house: House<'f, 'c, K, F, C>,
    ) -> House<'f, 'c, K, F, C>
        requires uncut { house.cut ≡ false }
        requires own { IsOwn K.terms.made house.own }
        requires telling { is_some (F.told house.fleet.now) ≡ K.terms.telling }
        ensures same { result.fleet.ghost_name ≡ house.entry.fleet.ghost_name }
        ensures keeps { KeepsHouse F.Fleet K.terms.made house.entry.fleet.now
            result.fleet.now house.entry.own result.own result.cut }
    {
        self.set_moment(rt, &mut house.moments);
        let mut guard = self.locked.lock(rt);
        match guard.hall.house_next(&self.cell) {
            Chore::Connect(opening) => {
                self.release(guard);
                return self.open(rt, alloc, house, opening);
            }
            Chore::Shut(errand) => {
                self.release(guard);
                return self.shut(rt, house, errand);
            }
            Chore::Again => self.release(guard),
            Chore::Wait => {
                let wait = house_wait(turns, &house.moments);
                let (client, step) = turns.take(&mut guard.hall, &self.cell);
                self.act(rt, gate, guard, wait, client, step);
            }
            Chore::Over => {
                self.release(guard);
                house.over = true;
            }
        }
        house
    }

    /// Does what the step of a client that has no thread asks for, and lets go of the lock. If there is no step to
    /// take, the house waits.
    fn act<'b, G: Gate, R: Wait>(
        &'b self,
        rt: &R,
        gate: &G,
        guard: MutexGuard<'b, Locked<K, W>>,
        wait: HouseWait,
        client: u8,
        step: Step<K, W>,
    )
        requires { IsOfClient step }
    {
        match step {
            Step::Go(errand) => {
                let guard = self.go(rt, gate, guard, client, errand);
                self.release(guard);
            }
            Step::Again | Step::Over => self.release(guard),
            Step::Wait => self.wait_as_house(rt, guard, wait),
        }
    }

    /// Sets the present moment, if it is time for that. The lock must not be held.
    fn set_moment<C: Clock, R: Wait>(&self, rt: &R, moments: &mut Moments<'_, C>) {
        if let Some(now) = moments.next() {
            let mut guard = self.locked.lock(rt);
            guard.hall.tick(now);
            self.release(guard);
        }
    }

    /// Asks the fleet for a connection, and brings back what came of it. The lock must not be held.
    fn open<'f, 'c, F: Fleet<Wire = W>, C: Clock, R: Wait>(
        &self,
        rt: &R,
        alloc: Global,
        house: House<'f, 'c, K, F, C>,
        opening: Opening<K>,
    ) -> House<'f, 'c, K, F, C>
        requires own { IsOwn K.terms.made house.own }
        requires telling { is_some (F.told house.fleet.now) ≡ K.terms.telling }
        ensures same { result.fleet.ghost_name ≡ house.entry.fleet.ghost_name }
        ensures keeps { KeepsHouse F.Fleet K.terms.made house.entry.fleet.now
            result.fleet.now house.entry.own result.own result.cut }
    {
        let House {
            own,
            fleet,
            moments,
            over,
            cut: _,
        } = house;
        let (own, cut) = match opening.connect(alloc, fleet) {
            Ok(opened) => {
                let mut guard = self.locked.lock(rt);
                let own = guard.hall.hear_opening(&self.cell, own, opened);
                let cut = guard.hall.is_stopped();
                self.release(guard);
                (own, cut)
            }
            Err(unopened) => {
                let mut guard = self.locked.lock(rt);
                guard.hall.hear_no_opening(&self.cell, unopened);
                self.release(guard);
                (own, true)
            }
        };
        House {
            own,
            fleet,
            moments,
            over,
            cut,
        }
    }

    /// Shuts a connection, brings back what was heard, and gives the wire back to the fleet. The lock must not be held.
    fn shut<'f, 'c, F: Fleet<Wire = W>, C: Clock, R: Wait>(
        &self,
        rt: &R,
        house: House<'f, 'c, K, F, C>,
        errand: Errand<K, W>,
    ) -> House<'f, 'c, K, F, C>
        requires own { IsOwn K.terms.made house.own }
        requires telling { is_some (F.told house.fleet.now) ≡ K.terms.telling }
        requires shuts { IsShutting errand.work }
        ensures same { result.fleet.ghost_name ≡ house.entry.fleet.ghost_name }
        ensures keeps { KeepsHouse F.Fleet K.terms.made house.entry.fleet.now
            result.fleet.now house.entry.own result.own result.cut }
    {
        let House {
            own,
            fleet,
            moments,
            over,
            cut: _,
        } = house;
        let conn = errand.conn();
        let (own, wire) = match errand.perform() {
            Ok(back) => {
                let mut guard = self.locked.lock(rt);
                let heard = guard.hall.hear_shut(&self.cell, own, back);
                self.release(guard);
                heard
            }
            Err(unheard) => {
                let mut guard = self.locked.lock(rt);
                guard.hall.hear_nothing(&self.cell, unheard);
                self.release(guard);
                (own, None)
            }
        };
        let cut = match wire {
            Some(wire) => {
                retire_wire(wire, conn, fleet);
                false
            }
            None => true,
        };
        House {
            own,
            fleet,
            moments,
            over,
            cut,
        }
    }
}

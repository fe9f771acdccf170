//! What the threads of a race share.
ghost use Rattle.std.specs.Prelude.{◌≡◌, ◌≤◌, None, Some, length};
ghost use Rattle.dsql_hall_steps.specs.laws_steps.Groups.{most_events};
ghost use Rattle.dsql_hall_steps.specs.Halls.{Keeps};
ghost use Rattle.dsql_hall_steps.specs.House.{IsClosed, IsOwn};

use crate::waiting::{CLIENTS, HouseWait, Waiting, Woken};
use dsql_hall_steps::{Bond, Cell, Closed, Hall, Halt, Race, Wire};
use std::array;
use std::sync::{Condvar, Mutex, MutexGuard, Wait};

/// What lies under the lock of a race: the hall, and which threads wait. It can't be dropped, because the hall can't.
pub(crate) struct Locked<K: Race, W: Wire> {
    pub(crate) hall: Hall<K, W>,
    waiting: Waiting,
}

impl<K: Race, W: Wire> Locked<K, W> {
    /// Picks a thread that waits although it may go on.
    fn pick(&mut self) -> Woken {
        self.waiting.pick(&mut self.hall)
    }

    /// Picks such a thread if more happened than entries and answers.
    fn pick_if_moved(&mut self) -> Woken {
        self.waiting.pick_if_moved(&mut self.hall)
    }
}

/// The hall of a race under its lock, the cell of its bonds, and a condition variable for each thread. It can't be
/// dropped, because the hall can't.
///
/// A thread waits only if its step says so, and gives up the lock under which it took the step. No thread that may go
/// on waits for ever. Before a thread waits or ends, it picks one that waits although it may go on, if there is one,
/// and wakes it. The picked thread takes its steps and does the same, so each of them is picked in the end. If no
/// client's thread takes steps, the house is picked too, because only the house can see that the race is over. A
/// thread that lets go of the lock for a driver call picks one too, so that it goes on soon. A race whose threads don't
/// wait for each other wakes nobody.
pub(crate) struct SharedHall<K: Race, W: Wire> {
    pub(crate) cell: Cell,
    pub(crate) locked: Mutex<Locked<K, W>>,
    /// What the thread of each client waits for, by the client's number: that it was picked.
    clients: [Condvar; CLIENTS],
    /// What the house waits for: that it was picked.
    house: Condvar,
    ghost named: { cell ≡ K.cell },
}

impl<K: Race, W: Wire> SharedHall<K, W> {
    /// Puts the hall under its lock. These clients have lines.
    pub(crate) fn new(cell: Cell, hall: Hall<K, W>, clients: &[u8]) -> SharedHall<K, W>
        requires { cell ≡ K.cell }
    {
        SharedHall {
            cell,
            locked: Mutex::new(Locked {
                hall,
                waiting: Waiting::new(clients),
            }),
            clients: array::from_fn(|_| Condvar::new()),
            house: Condvar::new(),
        }
    }

    /// Lets go of the lock, and wakes a thread that waits although it may go on.
    pub(crate) fn release(&self, guard: MutexGuard<'_, Locked<K, W>>) {
        let mut guard = guard;
        let woken = guard.pick();
        drop(guard);
        self.wake(woken);
    }

    /// Lets go of the lock for a driver call. Wakes a thread that waits although it may go on, if more happened than
    /// entries and answers.
    pub(crate) fn release_for_call(&self, guard: MutexGuard<'_, Locked<K, W>>) {
        let mut guard = guard;
        let woken = guard.pick_if_moved();
        drop(guard);
        self.wake(woken);
    }

    /// Lets go of the lock as the client's thread ends, and wakes a thread that waits although it may go on.
    pub(crate) fn leave(&self, guard: MutexGuard<'_, Locked<K, W>>, client: u8) {
        let mut guard = guard;
        guard.waiting.set_over(client);
        self.release(guard);
    }

    /// Wakes a thread that waits although it may go on, and lets go of the lock until the client's own thread is woken.
    /// The client's thread counts as one that waits only after it was picked which to wake.
    pub(crate) fn wait<'b, R: Wait>(
        &self,
        rt: &R,
        guard: MutexGuard<'b, Locked<K, W>>,
        client: u8,
    ) -> MutexGuard<'b, Locked<K, W>> {
        let mut guard = guard;
        guard.waiting.set_over(client);
        let woken = guard.pick();
        guard.waiting.set_waits(client);
        self.wake(woken);
        let mut guard = self.clients[client as usize].wait(rt, guard);
        guard.waiting.set_steps(client);
        guard
    }

    /// Wakes a thread that waits although it may go on, and lets go of the lock until the house is woken.
    pub(crate) fn wait_as_house<R: Wait>(
        &self,
        rt: &R,
        guard: MutexGuard<'_, Locked<K, W>>,
        wait: HouseWait,
    ) {
        let mut guard = guard;
        let woken = guard.pick();
        guard.waiting.set_house(wait);
        self.wake(woken);
        let mut guard = self.house.wait(rt, guard);
        guard.waiting.set_house(HouseWait::No);
    }

    /// Wakes the thread that was picked.
    fn wake(&self, woken: Woken) {
        match woken {
            Woken::Nobody => {}
            Woken::House => self.house.notify_one(),
            Woken::Client(client) => self.clients[client as usize].notify_one(),
        }
    }

    /// Closes the hall, after all other threads of the race have returned.
    pub(crate) fn close(self, own: Bond<K>) -> Closed<W>
        requires own { IsOwn K.terms.made own }
        ensures keeps { Keeps K.terms result.player result.settings.items }
        ensures full { result.stopped ≡ Some Halt.Full → most_events ≤ length result.player.past }
        ensures well { result.stopped ≡ None → IsClosed W.told K.terms own.past result.player result.wires }
    {
        let SharedHall {
            cell,
            locked,
            clients: _,
            house: _,
        } = self;
        let Locked { hall, waiting: _ } = locked.into_inner();
        hall.close(&cell, own)
    }
}

//! The thread of a client.
ghost use Rattle.std.specs.Prelude.{◌≢◌};

use crate::shared::{Locked, SharedHall};
use dsql_hall_steps::{Errand, Race, Step, Wire};
use dsql_history::Gate;
use std::sync::{MutexGuard, Wait};

impl<K: Race, W: Wire> SharedHall<K, W> {
    /// Takes the client's steps until nothing is left for it to do. Takes the lock once for each driver call: what was
    /// heard is brought back, and the steps up to the next driver call are taken.
    pub(crate) fn play_client<G: Gate, R: Wait>(&self, rt: &R, gate: &G, client: u8) {
        let mut guard = self.locked.lock(rt);
        for _ in rt.forever() {
            match guard.hall.next(&self.cell, client) {
                Step::Go(errand) => guard = self.go(rt, gate, guard, client, errand),
                Step::Again => {}
                Step::Wait => guard = self.wait(rt, guard, client),
                Step::Over => {
                    self.leave(guard, client);
                    return;
                }
            }
        }
    }

    /// Lets go of the lock, passes the gate, makes the client's driver call, and brings back what it heard. Returns
    /// with the lock.
    pub(crate) fn go<'b, G: Gate, R: Wait>(
        &'b self,
        rt: &R,
        gate: &G,
        guard: MutexGuard<'b, Locked<K, W>>,
        client: u8,
        errand: Errand<K, W>,
    ) -> MutexGuard<'b, Locked<K, W>>
        requires { errand.work.permit.call_no ≢ 0 }
    {
        self.release_for_call(guard);
        gate.before(client, errand.call_no());
        match errand.perform() {
            Ok(back) => {
                let mut guard = self.locked.lock(rt);
                guard.hall.hear(&self.cell, back);
                guard
            }
            Err(unheard) => {
                let mut guard = self.locked.lock(rt);
                guard.hall.hear_nothing(&self.cell, unheard);
                guard
            }
        }
    }
}

//! Clients that have no thread of their own. The house takes their steps.
ghost use Rattle.std.specs.Prelude.{◌≡◌};
ghost use Rattle.dsql_hall.specs.Calls.{IsOfClient};

use dsql_hall_steps::{Cell, Hall, Race, Step, Wire};

/// The clients that have no thread, and the place of the one whose turn it is.
#[derive(Drop)]
pub(crate) struct Turns<'c> {
    clients: &'c [u8],
    turn: usize,
}

impl<'c> Turns<'c> {
    /// Returns these clients, with the turn at the first.
    pub(crate) fn new(clients: &'c [u8]) -> Turns<'c> {
        Turns { clients, turn: 0 }
    }

    /// Is true if every client has a thread.
    pub(crate) fn is_empty(&self) -> bool {
        self.clients.is_empty()
    }

    /// Takes the next step of the first client, from the one whose turn it is, that needn't wait. Returns the client
    /// and its step. The turn is then at the client after it. If all of them have to wait or have done all, returns a
    /// step that waits. If a client's step stops the run, returns that step, so that the caller wakes the others.
    pub(crate) fn take<K: Race, W: Wire>(
        &mut self,
        hall: &mut Hall<K, W>,
        cell: &Cell,
    ) -> (u8, Step<K, W>)
        requires cell { cell.now ≡ K.cell }
        ensures { IsOfClient result.1 }
    {
        let clients = self.clients;
        for k in 0..clients.len() {
            let at = self.turn.wrapping_add(k) % clients.len();
            let client = clients[at];
            match hall.next(cell, client) {
                Step::Wait => {}
                Step::Over if !hall.is_stopped() => {}
                step => {
                    self.turn = at.wrapping_add(1);
                    return (client, step);
                }
            }
        }
        (0, Step::Wait)
    }
}

//! The threads of a race: one a client, and the calling one for the house.
ghost use Rattle.std.specs.Prelude.{◌≡◌, is_some};
ghost use Rattle.dsql_hall_steps.specs.House.{IsOwn};
ghost use Rattle.dsql_hall.specs.Fleets.{KeepsHouse};

use crate::house::House;
use crate::moments::Moments;
use crate::shared::SharedHall;
use dsql_hall_steps::{Bond, Fleet, Race, Wire};
use dsql_history::{Clock, Gate};
use std::alloc::Global;
use std::sync::Wait;
use std::thread;
use std::thread::{Scope, Threads};

/// Plays each client on a thread of its own, and the house on the calling one. Returns when all of them are over. If
/// `timed` is set, the house sets the moments that the clock shows.
pub(crate) fn run_threads<
    's,
    'f,
    'c,
    K: Race,
    F: Fleet,
    C: Clock,
    G: Gate,
    R: Threads + Wait + Sync,
>(
    rt: &'s R,
    alloc: Global,
    shared: &'s SharedHall<K, F::Wire>,
    gate: &'s G,
    clients: &'s [u8],
    own: Bond<K>,
    fleet: &'f mut F,
    clock: &'c mut C,
    timed: bool,
) -> House<'f, 'c, K, F, C>
    requires own { IsOwn K.terms.made own }
    requires telling { is_some (F.told fleet.old) ≡ K.terms.telling }
    ensures same { result.fleet.ghost_name ≡ fleet.entry.ghost_name }
    ensures keeps { KeepsHouse F.Fleet K.terms.made fleet.entry.now result.fleet.now own result.own result.cut }
{
    thread::scope(
        thread::scope_env(),
        rt,
        |scope| -> House<K, F, C>
            requires { IsOwn K.terms.made own × (is_some (F.told fleet.now) ≡ K.terms.telling) }
            ensures same { result.fleet.ghost_name ≡ fleet.entry.ghost_name }
            ensures keeps { KeepsHouse F.Fleet K.terms.made fleet.entry.now result.fleet.now own result.own result.cut }
        {
            let left = start_clients(scope, rt, shared, gate, clients);
            let house = House {
                own,
                fleet,
                moments: Moments::new(clock, timed),
                over: false,
                cut: false,
            };
            shared.keep_house(rt, alloc, gate, left, house)
        },
    )
}

/// Starts a thread for each client, in their order, until one can't be made. Returns the clients that have no thread.
fn start_clients<'s, E, K: Race, W: Wire + Send, G: Gate, R: Threads + Wait + Sync>(
    scope: &Scope<'s, E>,
    rt: &'s R,
    shared: &'s SharedHall<K, W>,
    gate: &'s G,
    clients: &'s [u8],
) -> &'s [u8] {
    for (started, client) in clients.iter().enumerate() {
        let client = *client;
        let thread = scope.spawn(move || shared.play_client(rt, gate, client));
        if thread.is_err() {
            return &clients[started..];
        }
    }
    &[]
}

//! What each client has at hand, by client number.
ghost use Rattle.std.specs.Prelude.{◌≡◌, ◌≢◌, ◌<◌, ◌≤◌, ◌∷◌, ◌++◌, ℕ, [], None, drop, false, is_some, length, map, slice_get, Some, IfSome, OnOk, OnErr};
ghost use Rattle.dsql_player_wires.specs.Seats.{empty_seat, seat, released};

use crate::at_hand::AtHand;
use dsql_engine_exchanged::Leave;
use dsql_history::{Memory, Op};
use std::alloc::Global;
use std::marker::Model;

/// A line of a client that is kept because the client isn't free yet: its call, and whether the call is to be
/// held.
#[derive(Drop)]
pub struct KeptLine {
    pub op: Op,
    pub held: bool,
}

/// What each client of a script has at hand. Contracts see a list of seats by client number.
#[derive(Drop)]
pub struct Seats {
    alloc: Global,
    seats: Vec<AtHand>,
}

impl Model for Seats {
    ghost use Rattle.std.specs.Prelude.{List, ◌≤◌, vec_len};
    ghost use Rattle.dsql_player_wires.specs.Seats.{Seat};

    ghost Value = { List Seat };

    ghost view = { λ s. s.seats.items };

    ghost invariant = { λ s. vec_len s.seats ≤ 256 };
}

impl Seats {
    /// Returns a table in which no client has anything at hand. It takes no memory.
    pub fn new(alloc: Global) -> Seats
        ensures { (c : ℕ) → seat result c ≡ empty_seat }
    {
        Seats {
            alloc,
            seats: Vec::new(alloc),
        }
    }

    /// Makes room for this client's seat if it has none. If it has one, the call takes no memory.
    pub fn seat_client(&mut self, client: u8) -> Result<(), Memory>
        ensures room { OnOk result (client < length self.new) }
        ensures same { (c : ℕ) → seat self.new c ≡ seat self.old c }
        ensures count { length self.old ≤ length self.new }
        ensures lacking { OnErr result (length self.old ≤ client) }
    {
        while self.seats.len() <= client as usize {
            self.seats.push(AtHand::new(self.alloc))?;
        }
        Ok(())
    }

    /// Appends a line to the client's kept lines, and makes room for them.
    pub fn keep(&mut self, client: u8, line: KeptLine) -> Result<(), Memory>
        ensures ok { OnOk result (seat self.new client
            ≡ record (seat self.old client) { kept = (seat self.old client).kept ++ line ∷ [] }) }
        ensures err { OnErr result ((c : ℕ) → seat self.new c ≡ seat self.old c) }
        ensures others { (c : ℕ) → c ≢ client → seat self.new c ≡ seat self.old c }
        ensures count { length self.old ≤ length self.new }
    {
        self.seat_client(client)?;
        self.seats[client as usize].keep(line)
    }

    /// Takes out the client's first kept line, if there is one.
    pub fn take_first(&mut self, client: u8) -> Option<KeptLine>
        ensures first { result ≡ slice_get (seat self.old client).kept 0 }
        ensures rest { seat self.new client
            ≡ record (seat self.old client) { kept = drop 1 (seat self.old client).kept } }
        ensures others { (c : ℕ) → c ≢ client → seat self.new c ≡ seat self.old c }
        ensures count { length self.new ≡ length self.old }
    {
        self.seats.get_mut(client as usize)?.take_first()
    }

    /// Replaces what the client had by the permit for its call's next driver call, or by none.
    pub fn hand(&mut self, client: u8, leave: Option<Leave>)
        requires { client < length self.old }
        ensures permit { seat self.new client ≡ record (seat self.old client) { permit = leave } }
        ensures others { (c : ℕ) → c ≢ client → seat self.new c ≡ seat self.old c }
        ensures count { length self.new ≡ length self.old }
    {
        self.seats[client as usize].hand(leave);
    }

    /// Returns the client's permit, if it has one. The client keeps it.
    pub fn leave(&self, client: u8) -> Option<&Leave>
        ensures some { IfSome result (λ leave. (seat self.now client).permit ≡ Some leave.now) }
        ensures none { result ≡ None → (seat self.now client).permit ≡ None }
    {
        self.seats.get(client as usize)?.leave()
    }

    /// Sets whether the client's call is held.
    pub fn hold(&mut self, client: u8, held: bool)
        requires { client < length self.old }
        ensures held { seat self.new client ≡ record (seat self.old client) { held = held } }
        ensures others { (c : ℕ) → c ≢ client → seat self.new c ≡ seat self.old c }
        ensures count { length self.new ≡ length self.old }
    {
        self.seats[client as usize].hold(held);
    }

    /// Releases every client's call, so that none is held.
    pub fn release_all(&mut self)
        ensures released { (c : ℕ) → seat self.new c ≡ record (seat self.old c) { held = false } }
        ensures count { length self.new ≡ length self.old }
    {
        release_each(self.seats.as_mut_slice());
    }

    /// Is true if the client has a permit for a driver call.
    pub fn has_leave(&self, client: u8) -> bool
        ensures { result ≡ is_some (seat self.now client).permit }
    {
        self.seats
            .get(client as usize)
            .is_some_and(|at_hand| at_hand.has_leave())
    }

    /// Is true if a line of the client is kept.
    pub fn has_kept(&self, client: u8) -> bool
        ensures { result ≡ is_some (slice_get (seat self.now client).kept 0) }
    {
        self.seats
            .get(client as usize)
            .is_some_and(|at_hand| at_hand.has_kept())
    }

    /// Is true if the client's call is held.
    pub fn is_held(&self, client: u8) -> bool
        ensures { result ≡ (seat self.now client).held }
    {
        self.seats
            .get(client as usize)
            .is_some_and(|at_hand| at_hand.is_held())
    }

    /// Returns how many clients there is room for: those with a smaller number.
    pub fn count(&self) -> usize
        ensures count { result ≡ length self.now }
        ensures few { result ≤ 256 }
    {
        self.seats.len()
    }
}

/// Releases the call of each seat.
fn release_each(seats: &mut [AtHand])
    ensures { seats.new ≡ map released seats.old }
{
    for at_hand in seats.iter_mut() {
        at_hand.hold(false);
    }
}

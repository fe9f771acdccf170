ghost use Rattle.std.specs.Prelude.{◌≡◌, ◌<◌, ◌≤◌, ◌∷◌, ℕ, List, [], true, false, length, reverse, OnOk, OnErr};
ghost use Rattle.dsql_engine_laws.specs.history.declared.event.Event.TheVariants.{Run};
ghost use Rattle.dsql_engine_laws.specs.history.Legal.{Legal};
ghost use Rattle.dsql_engine_laws.specs.history.Trimmed.{IsLeftOf};
ghost use Rattle.dsql_engine_laws.specs.follows.Moments.{Moment, at_end, just_begun};
ghost use Rattle.dsql_player.specs.Naming.{times};
ghost use Rattle.dsql_player.specs.Playing.{IsAt, IsReady};
ghost use Rattle.dsql_engine_laws.specs.laws_steps.Groups.{most_events};

use crate::halt::Halt;
use dsql_engine::{Engine, Room};
use dsql_engine_laws::{Caps, Event};
use dsql_player_wires::Seats;
use std::marker::Model;

/// A run of a script: the layer's core, what each client has at hand, and whether the script is at its end. At
/// the end no call is held any more. Contracts see it as `Playing`.
pub struct Player {
    pub(crate) engine: Engine,
    pub(crate) seats: Seats,
    pub(crate) released: bool,
}

// Written by hand, so that dropping a player is one call for the code that drops it.
impl Drop for Player {
    fn drop(self) {
        let Player {
            engine,
            seats,
            released: _released,
        } = self;
        drop(engine);
        drop(seats);
    }
}

impl Model for Player {
    ghost use Rattle.dsql_player.specs.Playing.{Playing};

    ghost Value = { Playing };

    ghost view = { λ p. record {
      past = p.engine.past;
      trimmed = p.engine.trimmed;
      flights = p.engine.flights;
      chore = p.engine.chore;
      seats = p.seats;
      released = p.released;
    } };
}

impl Player {
    /// Returns a player whose run has begun, over a driver with these abilities. It takes no memory.
    pub fn new(room: Room, version: u8, caps: Caps) -> Player
        requires { version ≡ 1 }
        ensures begun { result.past ≡ Run version caps ∷ [] }
        ensures at { IsAt (just_begun (Run version caps)) result }
        ensures ready { IsReady result }
        ensures unreleased { result.released ≡ false }
        ensures kept { result.trimmed ≡ 0 }
        ensures unnamed { (label : List ℕ) → times label result.past result.seats ≡ 0 }
    {
        let seats = Seats::new(room.alloc());
        Player {
            engine: Engine::begin(room, version, caps),
            seats,
            released: false,
        }
    }

    /// Returns the events that weren't trimmed, oldest first.
    pub fn history(&self) -> &[Event]
        ensures left { IsLeftOf self.now.past self.now.trimmed result.now }
        ensures all { self.now.trimmed ≡ 0 → result.now ≡ reverse self.now.past }
        ensures legal { Legal self.now.past }
    {
        self.engine.history()
    }

    /// Returns how many of the oldest events were trimmed.
    pub fn trimmed(&self) -> u32
        ensures { result ≡ self.now.trimmed }
    {
        self.engine.trimmed()
    }

    /// Trims the history, so that the events so far are no longer kept. Does nothing if the run has as many
    /// events as it may have.
    pub fn trim(&mut self)
        ensures past { self.new.past ≡ self.old.past }
        ensures flights { self.new.flights ≡ self.old.flights }
        ensures chore { self.new.chore ≡ self.old.chore }
        ensures seats { self.new.seats ≡ self.old.seats }
        ensures released { self.new.released ≡ self.old.released }
        ensures within { self.new.trimmed ≤ length self.new.past }
        ensures trimmed { length self.old.past < most_events → self.new.trimmed ≡ length self.new.past }
        ensures full { most_events ≤ length self.old.past → self.new.trimmed ≡ self.old.trimmed }
        ensures ready { IsReady self.old → IsReady self.new }
        ensures at { (m : Moment) → IsAt m self.old → IsAt m self.new }
    {
        // The call proves that no more events were trimmed than there are.
        let _history = self.engine.history();
        if self.engine.is_full() {
            return;
        }
        self.engine.trim();
    }

    /// Fails with `Full` if a step may append no more events.
    pub fn check_room(&self) -> Result<(), Halt>
        ensures ok { OnOk result (length self.now.past < most_events) }
        ensures full { OnErr result (most_events ≤ length self.now.past) }
        ensures kind { OnErr result (result ≡ Err Halt.Full) }
        ensures legal { Legal self.now.past }
    {
        // The call proves that the history is legal.
        let _history = self.engine.history();
        if self.engine.is_full() {
            return Err(Halt::Full);
        }
        Ok(())
    }

    /// Brings the script to its end, at which it releases every held call.
    pub fn release(&mut self)
        requires ready { IsReady self.old }
        ensures past { self.new.past ≡ self.old.past }
        ensures released { self.new.released ≡ true }
        ensures trimmed { self.new.trimmed ≡ self.old.trimmed }
        ensures ready { IsReady self.new }
        ensures at { (m : Moment) → IsAt m self.old → IsAt (at_end m) self.new }
    {
        self.seats.release_all();
        self.released = true;
    }
}

ghost use Rattle.std.specs.Prelude.{◌≡◌, ◌<◌, ◌≤◌, ◌+◌, ◌-◌, ◌∷◌, [], length, OnOk};
ghost use Rattle.dsql_laws.specs.history.Trimmed.{IsLeftOf};
ghost use Rattle.dsql_laws.specs.OwedMade.{with_moves};

use dsql_laws::{Event, Move, Past};
use std::alloc::{AllocError, Global};
use std::marker::Model;

/// A run's events. Contracts see all of them (newest first), how many were trimmed, and for how many more there
/// is memory.
#[derive(Drop)]
pub struct EventLog {
    oldest: Past<Event>,
    /// The number of trimmed events.
    trimmed: u32,
    kept: Vec<Event>,
}

impl Model for EventLog {
    ghost use Rattle.std.specs.Prelude.{◌≡◌, ◌++◌, ◌-◌, length, reverse, vec_capacity, vec_len};
    ghost use Rattle.dsql_engine_pooling.specs.Log.{Logged};

    ghost Value = { Logged };

    ghost view = { λ l. record {
      past = reverse l.kept.items
          ++ l.oldest.items;
      trimmed = length l.oldest.items;
      spare = vec_capacity l.kept - vec_len l.kept;
    } };

    ghost invariant = { λ l. l.trimmed ≡ length l.oldest.items };
}

impl EventLog {
    /// Returns a log without events. Takes no memory.
    pub fn new(alloc: Global) -> EventLog
        ensures past { result.past ≡ [] }
        ensures trimmed { result.trimmed ≡ 0 }
    {
        EventLog {
            oldest: Past::new(),
            trimmed: 0,
            kept: Vec::new(alloc),
        }
    }

    /// Takes the memory for this many more events. Fails with `AllocError` if there is none.
    pub fn reserve(&mut self, events: usize) -> Result<(), AllocError>
        ensures room { OnOk result (events ≤ self.new.spare) }
        ensures spare { self.old.spare ≤ self.new.spare }
        ensures past { self.new.past ≡ self.old.past }
        ensures trimmed { self.new.trimmed ≡ self.old.trimmed }
    {
        self.kept.reserve(events)
    }

    /// Appends an event for which there is memory.
    pub fn note(&mut self, event: Event)
        requires { 0 < self.old.spare }
        ensures past { self.new.past ≡ event ∷ self.old.past }
        ensures trimmed { self.new.trimmed ≡ self.old.trimmed }
        ensures spare { self.new.spare + 1 ≡ self.old.spare }
    {
        self.kept.push_reserved(event);
    }

    /// Appends moves of the pool for which there is memory, one after another.
    pub fn note_moves(&mut self, moves: &[Move])
        requires { length moves.now ≤ self.old.spare }
        ensures past { self.new.past ≡ with_moves moves.now self.old.past }
        ensures trimmed { self.new.trimmed ≡ self.old.trimmed }
        ensures spare { self.new.spare + length moves.now ≡ self.old.spare }
    {
        for made in moves {
            self.note(Event::Pool(*made));
        }
    }

    /// Returns the events that weren't trimmed, oldest first.
    pub fn kept(&self) -> &[Event]
        ensures { IsLeftOf self.now.past self.now.trimmed result.now }
    {
        &self.kept
    }

    /// Returns how many events were trimmed.
    pub fn trimmed(&self) -> u32
        ensures { result ≡ self.now.trimmed }
    {
        self.trimmed
    }

    /// Returns how many events there were, trimmed ones included.
    pub fn count(&self) -> u64
        ensures { result ≡ length self.now.past }
    {
        u64::from(self.trimmed) + self.kept.len() as u64
    }

    /// Trims all events: drops them from memory.
    pub fn trim(&mut self)
        requires { length self.old.past ≤ u32.MAX }
        ensures past { self.new.past ≡ self.old.past }
        ensures trimmed { self.new.trimmed ≡ length self.new.past }
        ensures spare { self.old.spare ≤ self.new.spare }
    {
        self.oldest = self.oldest.then_all(&self.kept);
        self.trimmed += self.kept.len() as u32;
        self.kept.clear();
    }
}

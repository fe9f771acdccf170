//! Questions that a caller may ask about a run.
ghost use Rattle.std.specs.Prelude.{◌≡◌, ◌≤◌, ◌<◌, ◌&&◌, ◌↔◌, not, true, length, reverse, None, IsTrue, IfSome};
ghost use Rattle.dsql_engine_hearing.specs.history.Legal.{Legal};
ghost use Rattle.dsql_engine_hearing.specs.history.Trimmed.{IsLeftOf};
ghost use Rattle.dsql_engine_hearing.specs.history.Readers.Course.{has_ended};
ghost use Rattle.dsql_engine_hearing.specs.history.Readers.Labels.{names_fit};
ghost use Rattle.dsql_engine_hearing.specs.history.Rules.House.{is_quiet};
ghost use Rattle.dsql_engine_hearing.specs.history.Readers.Unfinished.{is_unfinished};
ghost use Rattle.dsql_engine_hearing.specs.desk.Desk.{past, Stands};
ghost use Rattle.dsql_engine_hearing.specs.going.Answers.{why_blocked};
ghost use Rattle.dsql_engine.specs.Core.{blocked_call, blocked_for, is_parked, unfinished_of};
ghost use Rattle.dsql_engine.specs.Hearing.{is_on, is_under_way};
ghost use Rattle.dsql_engine_hearing.specs.laws_steps.Groups.{most_events};

use crate::engine::Engine;
use dsql_engine_hearing::{Desk, Entry, Event, Flights, MAX_EVENTS, Op, Stand, Why};
use std::marker::Model;

/// A run that has as many events as a run may have. Contracts see the number of its events.
#[derive(Debug, Drop)]
pub struct Spent {
    events: u64,
}

impl Model for Spent {
    ghost use Rattle.std.specs.Prelude.{ℕ};

    ghost Value = { ℕ };

    ghost view = { λ s. s.events };
}

impl Spent {
    /// Returns the number of events.
    pub fn events(&self) -> u64
        ensures { result ≡ self.now }
    {
        self.events
    }
}

#[tactic(auto, using(crate::proofs::Legality::legal_of, crate::proofs::Legality::ended_of))]
impl Engine {
    /// Returns the client's unfinished call. Returns `None` if there is none.
    pub fn unfinished(&self, client: u8) -> Option<u32>
        ensures { result ≡ unfinished_of self.now.past client }
    {
        if self.desk.is_busy(client) {
            Some(self.desk.call_of(client))
        } else {
            None
        }
    }

    /// Returns whether the client has an unfinished call with no driver call under way.
    pub fn parked(&self, client: u8) -> bool
        ensures { result ≡ is_parked self.now client }
    {
        self.desk.is_busy(client) && !self.flights.has_call(self.desk.call_of(client))
    }

    /// Returns why the client's unfinished call can't move, if it has no driver call under way and can't move.
    /// Returns `None` otherwise.
    pub fn blocked(&self, client: u8) -> Option<Why>
        ensures { result ≡ blocked_for self.now client }
    {
        if self.desk.is_busy(client) {
            blocked_call(&self.desk, &self.flights, self.desk.call_of(client))
        } else {
            None
        }
    }

    /// Returns whether none of the layer's own driver calls is under way.
    pub fn house_free(&self) -> bool
        ensures { IsTrue result ↔ (self.now.chore ≡ None) }
    {
        self.chore.is_none()
    }

    /// Returns whether this entry's driver call is under way: one for its call, on its connection.
    pub fn in_flight(&self, entry: &Entry) -> bool
        ensures { result ≡ is_under_way self.now entry.now.call_no entry.now.conn }
    {
        if entry.call_no == 0 {
            is_on(self.chore, entry.conn)
        } else {
            self.flights.has(entry.call_no, entry.conn)
        }
    }

    /// Returns whether the run may end: it hasn't ended yet, every call has its reply or waits, and there is no
    /// chore.
    pub fn may_end(&self) -> bool
        ensures { result ≡ (is_quiet self.now.past && not (has_ended self.now.past)) }
    {
        self.desk.is_quiet() && !self.desk.ended
    }

    /// Returns whether no call that has entered makes the label that this operation makes. Rows and transactions share
    /// their labels.
    pub fn names_fit(&self, op: &Op) -> bool
        ensures { result ≡ names_fit self.now.past op.now }
    {
        self.desk.names_fit(op)
    }

    /// Returns whether the history has as many events as a run may have.
    pub fn is_full(&self) -> bool
        ensures { IsTrue result ↔ (most_events ≤ length self.now.past) }
    {
        self.desk.history.count() >= MAX_EVENTS as u64
    }

    /// Returns the number of events if the history has as many as a run may have. Returns `None` otherwise.
    pub fn full(&self) -> Option<Spent>
        ensures events { IfSome result (λ spent. spent ≡ length self.now.past) }
        ensures full { IfSome result (λ _. most_events ≤ length self.now.past) }
        ensures room { result ≡ None → length self.now.past < most_events }
    {
        if self.is_full() {
            Some(Spent {
                events: self.desk.history.count(),
            })
        } else {
            None
        }
    }

    /// Returns how many of the oldest events were trimmed.
    pub fn trimmed(&self) -> u32
        ensures { result ≡ self.now.trimmed }
    {
        self.desk.history.trimmed()
    }

    /// Returns the events that weren't trimmed, oldest first.
    pub fn history(&self) -> &[Event]
        ensures left { IsLeftOf self.now.past self.now.trimmed result.now }
        ensures all { self.now.trimmed ≡ 0 → result.now ≡ reverse self.now.past }
        ensures legal { Legal self.now.past }
    {
        self.desk.history.kept()
    }
}

/// Returns whether the layer's own driver call is under way on this connection.
fn is_on(chore: Option<u32>, conn: u32) -> bool
    ensures { result ≡ is_on conn chore }
{
    match chore {
        Some(under_way) => under_way == conn,
        None => false,
    }
}

/// Returns why an unfinished call can't move, if it has no driver call under way and can't move.
fn blocked_call(desk: &Desk, flights: &Flights, call: u32) -> Option<Why>
    requires stands { Stands desk.now }
    requires unfinished { is_unfinished (past desk.now) call ≡ true }
    ensures { result ≡ blocked_call (past desk.now) flights.now.flights call }
{
    if flights.has_call(call) {
        None
    } else {
        why_blocked(flights, call, desk.stand(call))
    }
}

/// Returns why a call that stands here can't move. Returns `None` if it can.
fn why_blocked(flights: &Flights, call: u32, stand: Option<Stand>) -> Option<Why>
    ensures { result ≡ why_blocked flights.now.flights call stand }
{
    match stand {
        Some(Stand::Waits) => Some(Why::Connection),
        Some(Stand::Opens(_)) => Some(Why::Opening),
        Some(Stand::Sends(conn)) => {
            if flights.is_taken(call, conn) {
                Some(Why::Turn(conn))
            } else {
                None
            }
        }
        _ => None,
    }
}

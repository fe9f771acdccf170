//! What one client has at hand.
ghost use Rattle.std.specs.Prelude.{◌≡◌, ◌∷◌, ◌++◌, [], None, drop, is_some, slice_get, Some, IfSome, OnOk, OnErr};
ghost use Rattle.dsql_player_wires.specs.Seats.{empty_seat};

use crate::seats::KeptLine;
use dsql_engine_exchanged::Leave;
use dsql_history::Memory;
use std::alloc::Global;
use std::collections::VecDeque;
use std::marker::Model;

/// What one client has at hand. Contracts see its seat.
#[derive(Drop)]
pub(crate) struct AtHand {
    leave: Option<Leave>,
    kept: VecDeque<KeptLine>,
    held: bool,
}

impl Model for AtHand {
    ghost use Rattle.dsql_player_wires.specs.Seats.{Seat};

    ghost Value = { Seat };

    ghost view = { λ a. record { permit = a.leave; kept = a.kept.items; held = a.held } };
}

impl AtHand {
    /// Returns a value with nothing at hand. It takes no memory.
    pub(crate) fn new(alloc: Global) -> AtHand
        ensures { result ≡ empty_seat }
    {
        AtHand {
            leave: None,
            kept: VecDeque::new(alloc),
            held: false,
        }
    }

    /// Appends a line to the kept lines.
    pub(crate) fn keep(&mut self, line: KeptLine) -> Result<(), Memory>
        ensures ok { OnOk result (self.new ≡ record self.old { kept = self.old.kept ++ line ∷ [] }) }
        ensures err { OnErr result (self.new ≡ self.old) }
    {
        self.kept.push_back(line)?;
        Ok(())
    }

    /// Takes out the first kept line, if there is one.
    pub(crate) fn take_first(&mut self) -> Option<KeptLine>
        ensures first { result ≡ slice_get self.old.kept 0 }
        ensures rest { self.new ≡ record self.old { kept = drop 1 self.old.kept } }
    {
        self.kept.pop_front()
    }

    /// Replaces the permit by this one.
    pub(crate) fn hand(&mut self, leave: Option<Leave>)
        ensures { self.new ≡ record self.old { permit = leave } }
    {
        self.leave = leave;
    }

    /// Returns the permit, if there is one. It stays at hand.
    pub(crate) fn leave(&self) -> Option<&Leave>
        ensures some { IfSome result (λ leave. self.now.permit ≡ Some leave.now) }
        ensures none { result ≡ None → self.now.permit ≡ None }
    {
        self.leave.as_ref()
    }

    /// Sets whether the client's call is held.
    pub(crate) fn hold(&mut self, held: bool)
        ensures { self.new ≡ record self.old { held = held } }
    {
        self.held = held;
    }

    /// Is true if there is a permit for a driver call.
    pub(crate) fn has_leave(&self) -> bool
        ensures { result ≡ is_some self.now.permit }
    {
        self.leave.is_some()
    }

    /// Is true if a line is kept.
    pub(crate) fn has_kept(&self) -> bool
        ensures { result ≡ is_some (slice_get self.now.kept 0) }
    {
        !self.kept.is_empty()
    }

    /// Is true if the client's call is held.
    pub(crate) fn is_held(&self) -> bool
        ensures { result ≡ self.now.held }
    {
        self.held
    }
}

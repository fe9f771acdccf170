//! Questions about a player and its clients.
ghost use Rattle.std.specs.Prelude.{◌≡◌, ◌&&◌, true, not, is_some};
ghost use Rattle.dsql_engine_laws.specs.journal.Readers.{is_empty};
ghost use Rattle.dsql_engine_laws.specs.history.Readers.Calls.{is_busy};
ghost use Rattle.dsql_engine_laws.specs.history.Readers.Clients.{call_of};
ghost use Rattle.dsql_engine_laws.specs.history.Readers.Course.{has_ended};
ghost use Rattle.dsql_engine_laws.specs.history.Rules.House.{is_quiet};
ghost use Rattle.dsql_engine_laws.specs.laws_ends.Over.{may_move};
ghost use Rattle.dsql_player_wires.specs.Seats.{seat};

use crate::player::Player;

impl Player {
    /// Is true if the client has a call that hasn't replied yet.
    pub fn has_call(&self, client: u8) -> bool
        ensures { result ≡ is_busy client self.now.past }
    {
        self.engine.unfinished(client).is_some()
    }

    /// Is true if a line of the client is kept.
    pub fn has_kept(&self, client: u8) -> bool
        ensures { result ≡ not (is_empty (seat self.now.seats client).kept) }
    {
        self.seats.has_kept(client)
    }

    /// Is true if the client has a permit for a driver call.
    pub fn has_leave(&self, client: u8) -> bool
        ensures { result ≡ is_some (seat self.now.seats client).permit }
    {
        self.seats.has_leave(client)
    }

    /// Is true if the client's call may move.
    pub fn may_move(&self, client: u8) -> bool
        requires busy { is_busy client self.now.past ≡ true }
        ensures { result ≡ may_move self.now.past self.now.flights (call_of self.now.past client) }
    {
        self.engine.blocked(client).is_none()
    }

    /// Is true if the run may end. Every call has its reply or waits then, and the layer has no driver call of its own
    /// to make.
    pub fn may_end(&self) -> bool
        ensures { result ≡ (is_quiet self.now.past && not (has_ended self.now.past)) }
    {
        self.engine.may_end()
    }
}

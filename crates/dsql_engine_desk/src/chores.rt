//! The layer's own driver calls.
ghost use Rattle.std.specs.Prelude.{◌≡◌, find};
ghost use Rattle.dsql_engine_desk.specs.Desk.{past, Stands};
ghost use Rattle.dsql_laws_calls.specs.history.Readers.Pool.{pool};
ghost use Rattle.dsql_laws_calls.specs.history.Rules.House.{chore_due, connect_due, is_untidy, shut_due, tidy_due};

use crate::desk::Desk;
use dsql_engine_pooling::places;
use dsql_laws_calls::{Conn, Place};

#[tactic(auto, unfolding(crate::specs::Desk::Stands))]
impl Desk {
    /// Returns the connection of the layer's own driver call that comes first, if there is one.
    pub fn chore_due(&self) -> Option<u32>
        requires { Stands self.now }
        ensures { result ≡ chore_due (past self.now) }
    {
        if let Some(conn) = self.tidy_due() {
            return Some(conn);
        }
        if let Some(conn) = self.shut_due() {
            return Some(conn);
        }
        self.connect_due()
    }

    /// Returns the first connection to tidy up, if there is one.
    pub fn tidy_due(&self) -> Option<u32>
        requires { Stands self.now }
        ensures { result ≡ tidy_due (past self.now) }
    {
        places::number_of(self.first_untidy())
    }

    fn first_untidy(&self) -> Option<Conn>
        requires { Stands self.now }
        ensures { result ≡ find (λ conn. is_untidy (past self.now) conn.place) (pool (past self.now)).conns }
    {
        self.pool
            .conns()
            .iter()
            .copied()
            .find(|conn| self.is_untidy(conn.place))
    }

    /// Returns whether a connection in this place has rows to close or a transaction to end that no call ended.
    fn is_untidy(&self, place: Place) -> bool
        requires { Stands self.now }
        ensures { result ≡ is_untidy (past self.now) place }
    {
        match place {
            Place::Lent(_, owner) => !owner.is_house() && self.is_tidying(owner.number()),
            _ => false,
        }
    }

    /// Returns the first connection to shut, if there is one.
    pub fn shut_due(&self) -> Option<u32>
        requires { Stands self.now }
        ensures { result ≡ shut_due (past self.now) }
    {
        places::number_of(places::closing(self.pool.conns()))
    }

    /// Returns the first connection to connect, if there is one.
    pub fn connect_due(&self) -> Option<u32>
        requires { Stands self.now }
        ensures { result ≡ connect_due (past self.now) }
    {
        places::number_of(places::opening(self.pool.conns()))
    }
}

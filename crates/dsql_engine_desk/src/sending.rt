//! The next driver call on a connection that is lent to a call or to a transaction.
ghost use Rattle.std.specs.Prelude.{◌≡◌, ◌==◌, Some, true, is_some, option_map};
ghost use Rattle.dsql_engine_desk.specs.Desk.{past, Stands};
ghost use Rattle.dsql_engine_desk.specs.Lines.{due_alone, due_by, due_ending, is_to_send};
ghost use Rattle.dsql_engine_exchanged.specs.Filled.{filled};
ghost use Rattle.dsql_engine_calls.specs.Calls.{rows_worked, tx_worked};
ghost use Rattle.dsql_engine_desk.specs.Next.{IsWanted, has_line};
ghost use Rattle.dsql_laws_calls.specs.history.declared.work.Scope.TheVariants.{Held};
ghost use Rattle.dsql_laws_calls.specs.history.Readers.Unfinished.{is_unfinished};
ghost use Rattle.dsql_laws_calls.specs.history.Readers.Works.{asks, scope, work};
ghost use Rattle.dsql_laws_calls.specs.works.Line.{Asked};
ghost use Rattle.dsql_laws_calls.specs.history.Rules.Ending.{ending};
ghost use Rattle.dsql_laws_calls.specs.history.Rules.Line.{due_for, is_used, rest, sends_in, tidying};
ghost use Rattle.dsql_laws_calls.specs.history.Rules.Sent.{asked_by, closes, close_due, line_of, sent_for, wish};

use crate::desk::Desk;
use dsql_engine_exchanged::BareCall;
use dsql_laws_calls::{Scope, Wish};

#[tactic(auto, using(crate::proofs::Due::due_by_kind, crate::proofs::Due::is_filled, crate::proofs::Due::sender_line, crate::proofs::Due::over_made, crate::proofs::Due::wanted, crate::proofs::Due::unmade, crate::proofs::Due::rest_by_rows, crate::proofs::ToldBeside::late_inside, crate::proofs::ToldBeside::scope_inside, crate::proofs::OverRows::made_line), unfolding(crate::specs::Desk::Stands))]
impl Desk {
    /// Returns whether a driver call is due for a call.
    pub fn has_due(&self, call: u32) -> bool
        requires { Stands self.now }
        ensures { result ≡ is_some (due_for (past self.now) call) }
    {
        self.due(call).is_some()
    }

    /// Returns the driver call that is due for a call, without its text and parameters, which are those of the
    /// call.
    pub fn due(&self, call: u32) -> Option<BareCall>
        requires { Stands self.now }
        ensures { option_map (filled (asked_by (past self.now) call)) result ≡ due_for (past self.now) call }
    {
        if self.is_unfinished(call) {
            self.due_by(call, self.rows_worked(call))
        } else {
            None
        }
    }

    /// Returns whether the layer itself has something to send for the rows or the transaction of a call.
    pub fn is_tidying(&self, call: u32) -> bool
        requires { Stands self.now }
        ensures { result ≡ is_some (tidying (past self.now) call) }
    {
        self.tidying(call).is_some()
    }

    /// Returns the driver call that the layer itself sends next to close the rows of a call, or to end its
    /// transaction.
    pub fn tidying(&self, call: u32) -> Option<BareCall>
        requires { Stands self.now }
        ensures { (asked : Asked) → option_map (filled asked) result ≡ tidying (past self.now) call }
    {
        if self.is_begun(call) {
            if self.tx_ender(call) == 0 {
                self.ending(call)
            } else {
                None
            }
        } else if self.ender(call) == 0 {
            self.close_due(call)
        } else {
            None
        }
    }

    /// Returns whether the connection that is lent to a call or its transaction is in use.
    pub fn is_used(&self, call: u32) -> bool
        requires stands { Stands self.now }
        requires line { has_line (work (past self.now) call) ≡ true }
        ensures { result ≡ is_used (past self.now) call }
    {
        self.tx_goes_on(call) || self.are_live(call) || self.has_rest(call)
    }

    /// Returns whether something is still to be sent on the connection that is lent to a call or its
    /// transaction.
    fn has_rest(&self, call: u32) -> bool
        requires stands { Stands self.now }
        requires line { has_line (work (past self.now) call) ≡ true }
        ensures { result ≡ is_some (rest (past self.now) call) }
    {
        if self.is_begun(call) {
            self.ending(call).is_some()
        } else if self.are_live(call) {
            false
        } else if self.are_over(call) {
            self.sends(call, Wish::Close)
        } else {
            self.sends(call, Wish::Nothing)
        }
    }

    /// Returns what a call wants from the rows of another call.
    fn wish(&self, call: u32, query: u32) -> Wish
        requires stands { Stands self.now }
        requires works { rows_worked (work (past self.now) call) ≡ Some query }
        ensures { result ≡ wish (past self.now) call query }
    {
        if self.closes(call, query) {
            Wish::Close
        } else if self.fetches(call) && self.are_live(query) && !self.has_decided(call) {
            Wish::Fetch
        } else {
            Wish::Nothing
        }
    }

    /// Returns whether a call closes the rows of another call, which it has ended.
    fn closes(&self, call: u32, query: u32) -> bool
        requires stands { Stands self.now }
        requires works { rows_worked (work (past self.now) call) ≡ Some query }
        ensures { result ≡ closes (past self.now) call query }
    {
        self.ender(query) == call && (!self.is_late(query) || self.has_begun(call))
    }

    /// Returns the driver call that a call sends: over these rows if it works on rows, otherwise for itself.
    fn due_by(&self, call: u32, rows: Option<u32>) -> Option<BareCall>
        requires stands { Stands self.now }
        requires unfinished { is_unfinished (past self.now) call ≡ true }
        requires works { rows_worked (work (past self.now) call) ≡ rows }
        ensures { option_map (filled (asked_by (past self.now) call)) result
            ≡ due_by (past self.now) call (asks (work (past self.now) call))
            (scope (work (past self.now) call)) (tx_worked (work (past self.now) call)) rows }
    {
        match rows {
            Some(query) => self.sent_over(query, self.wish(call, query)),
            None => self.due_ending(call, self.tx_worked(call)),
        }
    }

    /// Returns the driver call that a call sends: to end this transaction if it is to end one, otherwise by
    /// itself.
    fn due_ending(&self, call: u32, tx: Option<u32>) -> Option<BareCall>
        requires { Stands self.now }
        ensures { option_map (filled (asked_by (past self.now) call)) result
            ≡ due_ending (past self.now) call (asks (work (past self.now) call))
            (scope (work (past self.now) call)) tx }
    {
        match tx {
            Some(tx) if self.tx_ender(tx) == call => self.ending(tx),
            Some(_) => None,
            None => self.due_alone(call),
        }
    }

    /// Returns the driver call that a call sends by itself.
    fn due_alone(&self, call: u32) -> Option<BareCall>
        requires { Stands self.now }
        ensures { option_map (filled (asked_by (past self.now) call)) result
            ≡ due_alone (past self.now) call (asks (work (past self.now) call))
            (scope (work (past self.now) call)) }
    {
        if self.is_to_send(call) {
            self.next(call, Wish::Nothing)
        } else {
            None
        }
    }

    /// Returns whether a call is to send by itself.
    fn is_to_send(&self, call: u32) -> bool
        requires { Stands self.now }
        ensures { result ≡ is_to_send (past self.now) call (asks (work (past self.now) call))
            (scope (work (past self.now) call)) }
    {
        match self.scope(call) {
            Scope::Db => self.asks(call),
            Scope::Held(tx) => self.sends_in(call, tx),
        }
    }

    /// Returns whether a call in a transaction has begun to send, or may begin.
    fn sends_in(&self, call: u32, tx: u32) -> bool
        requires stands { Stands self.now }
        requires inside { scope (work (past self.now) call) ≡ Held tx }
        ensures { result ≡ sends_in (past self.now) call tx }
    {
        self.has_begun(call) || (self.tx_goes_on(tx) && !self.has_decided(call))
    }

    /// Returns the driver call that is still to be sent to close the rows that a call handed out.
    pub(crate) fn close_due(&self, call: u32) -> Option<BareCall>
        requires { Stands self.now }
        ensures { (asked : Asked) → option_map (filled asked) result ≡ close_due (past self.now) call }
    {
        if self.are_over(call) {
            self.next_over(call, Wish::Close)
        } else {
            None
        }
    }

    /// Returns the driver call that is sent over the rows of a call to satisfy this wish.
    fn sent_over(&self, query: u32, wish: Wish) -> Option<BareCall>
        requires stands { Stands self.now }
        requires wanted { IsWanted (past self.now) query wish }
        ensures { (asked : Asked) → option_map (filled asked) result ≡ sent_for (past self.now) query wish }
    {
        match wish {
            Wish::Nothing => None,
            Wish::Fetch | Wish::Close => self.next_over(query, wish),
        }
    }

    /// Returns whether something is sent next in the line of a call.
    fn sends(&self, call: u32, wish: Wish) -> bool
        requires stands { Stands self.now }
        requires line { has_line (work (past self.now) call) ≡ true }
        ensures { result ≡ is_some (line_of (past self.now) call wish) }
    {
        self.next(call, wish).is_some()
    }
}

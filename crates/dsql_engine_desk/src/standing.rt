//! Where an unfinished call stands, and what others have settled for it.
ghost use Rattle.std.specs.Prelude.{◌≡◌, ◌&&◌, None, true, not, is_some};
ghost use Rattle.std.specs.List.{list_all};
ghost use Rattle.dsql_engine_desk.specs.Desk.{past, Stands};
ghost use Rattle.dsql_laws_calls.specs.course.Made.{or_else};
ghost use Rattle.dsql_laws_calls.specs.pool.Calls.{wants};
ghost use Rattle.dsql_laws_calls.specs.history.declared.record.Stand.TheVariants.{Asks, Sends, Replies};
ghost use Rattle.dsql_laws_calls.specs.history.Readers.Calls.{reply_due, rests, rests_with, site, told_at_lending, told_by_others, told_by_tries};
ghost use Rattle.dsql_laws_calls.specs.history.Readers.Pool.{pool};
ghost use Rattle.dsql_laws_calls.specs.history.Readers.Tries.{asks_again, asks_last, tries};
ghost use Rattle.dsql_laws_calls.specs.history.Readers.Unfinished.{is_unfinished, unfinished};
ghost use Rattle.dsql_engine_calls.specs.Calls.{rows_worked};
ghost use Rattle.dsql_laws_calls.specs.history.Readers.Works.{asks, work};
ghost use Rattle.dsql_laws_calls.specs.history.Rules.Asking.{may_ask, may_try};
ghost use Rattle.dsql_laws_calls.specs.history.Rules.House.{is_quiet};
ghost use Rattle.dsql_laws_calls.specs.history.Rules.Line.{due_for};
ghost use Rattle.dsql_laws_calls.specs.history.Rules.Stands.{is_waiting, stands, has_to_reply, is_settled_for, stand};

use crate::desk::Desk;
use dsql_engine_calls::row;
use dsql_engine_calls::standing::waits_or_opens;
use dsql_laws_calls::{Scope, Stand};

#[tactic(auto, using(crate::proofs::Told::told_kept, crate::proofs::Told::lent_kept, crate::proofs::Told::rests_kept, crate::proofs::Told::another_kept, crate::proofs::Told::again_kept, crate::proofs::Told::last_kept, crate::proofs::Told::step_kept, crate::proofs::Told::none_or_some, crate::proofs::Told::either_some, crate::proofs::Told::waiting_only, crate::proofs::ToldBeside::told_over, crate::proofs::ToldBeside::told_on_db, crate::proofs::ToldBeside::told_inside), unfolding(crate::specs::Desk::Stands))]
impl Desk {
    /// Returns where an unfinished call stands.
    pub fn stand(&self, call: u32) -> Option<Stand>
        requires stands { Stands self.now }
        requires unfinished { is_unfinished (past self.now) call ≡ true }
        ensures { result ≡ stand (past self.now) call }
    {
        match waits_or_opens(self.waits(call), self.opening_for(call)) {
            Some(stand) => Some(stand),
            None => self.sends_replies_or_asks(call),
        }
    }

    /// Returns where an unfinished call stands that doesn't wait, and for which no connection is being opened.
    fn sends_replies_or_asks(&self, call: u32) -> Option<Stand>
        requires stands { Stands self.now }
        requires unfinished { is_unfinished (past self.now) call ≡ true }
        ensures { result ≡ or_else (stands (is_some (due_for (past self.now) call)) (Sends (site (past self.now) call)))
            (or_else (stands (has_to_reply (past self.now) call) Replies)
            (stands (asks_again (tries (past self.now) call)) Asks)) }
    {
        if self.has_due(call) {
            return Some(Stand::Sends(self.site(call)));
        }
        if self.has_to_reply(call) {
            return Some(Stand::Replies);
        }
        if self.asks_again(call) {
            Some(Stand::Asks)
        } else {
            None
        }
    }

    /// Returns whether an unfinished call has to reply. In its own step it replies at once instead.
    fn has_to_reply(&self, call: u32) -> bool
        requires stands { Stands self.now }
        requires unfinished { is_unfinished (past self.now) call ≡ true }
        ensures { result ≡ has_to_reply (past self.now) call }
    {
        self.step != call && self.is_settled_for(call)
    }

    /// Returns whether others have settled the reply of an unfinished call, or whether the call rests with its
    /// connection.
    fn is_settled_for(&self, call: u32) -> bool
        requires stands { Stands self.now }
        requires unfinished { is_unfinished (past self.now) call ≡ true }
        ensures { result ≡ is_settled_for (past self.now) call }
    {
        self.rests_with(call).is_some() || (!self.has_decided(call) && self.is_told(call))
    }

    /// Returns whether an unfinished call rests with its connection, on which it has nothing to send.
    pub fn rests(&self, call: u32) -> bool
        requires stands { Stands self.now }
        requires unfinished { is_unfinished (past self.now) call ≡ true }
        ensures { result ≡ rests (past self.now) call }
    {
        !self.caps.validator && self.is_told_as_lent(call)
    }

    /// Returns the connection with which an unfinished call rests, if it does.
    pub fn rests_with(&self, call: u32) -> Option<u32>
        requires stands { Stands self.now }
        requires unfinished { is_unfinished (past self.now) call ≡ true }
        ensures { result ≡ rests_with (past self.now) call }
    {
        if self.rests(call) {
            self.lent_or_opened(call)
        } else {
            None
        }
    }

    /// Returns whether the reply of an unfinished call is settled.
    pub fn is_settled(&self, call: u32) -> bool
        requires stands { Stands self.now }
        requires unfinished { is_unfinished (past self.now) call ≡ true }
        ensures { result ≡ is_some (reply_due (past self.now) call) }
    {
        self.has_decided(call) || self.is_told(call) || self.is_told_as_lent(call)
    }

    /// Returns whether a call is to ask for a connection.
    #[tactic(auto, unfolding(crate::specs::Desk::Stands))]
    pub fn may_ask(&self, call: u32) -> bool
        requires { Stands self.now }
        ensures { result ≡ may_ask (past self.now) call }
    {
        self.is_unfinished(call) && self.is_to_ask(call) && !self.is_settled(call)
    }

    /// Returns whether every call has its reply or waits, and there is no chore.
    pub fn is_quiet(&self) -> bool
        requires { Stands self.now }
        ensures { result ≡ is_quiet (past self.now) }
    {
        self.all_wait() && self.chore_due().is_none()
    }

    /// Returns whether each unfinished call waits.
    fn all_wait(&self) -> bool
        requires { Stands self.now }
        ensures { result ≡ list_all (λ n. is_waiting (stand (past self.now) n)) (unfinished (past self.now)) }
    {
        self.unfinished.iter().all(|call| self.is_waiting(*call))
    }

    fn is_waiting(&self, call: u32) -> bool
        requires { Stands self.now }
        ensures { result ≡ is_waiting (stand (past self.now) call) }
    {
        self.waits(call)
    }

    /// Returns whether others have settled the reply of an unfinished call.
    fn is_told(&self, call: u32) -> bool
        requires stands { Stands self.now }
        requires unfinished { is_unfinished (past self.now) call ≡ true }
        ensures { result ≡ is_some (told_by_others (past self.now) call) }
    {
        match self.rows_worked(call) {
            Some(query) => !self.fetches(call) || self.are_over(query),
            None => self.is_told_alone(call),
        }
    }

    /// Returns whether others have settled the reply of an unfinished call that works on no rows.
    fn is_told_alone(&self, call: u32) -> bool
        requires stands { Stands self.now }
        requires unfinished { is_unfinished (past self.now) call ≡ true }
        requires no_rows { rows_worked (work (past self.now) call) ≡ None }
        ensures { result ≡ is_some (told_by_others (past self.now) call) }
    {
        match self.scope(call) {
            Scope::Db => self.asks(call) && self.is_told_by_tries(call),
            Scope::Held(_) => self.ended_before(call).is_some(),
        }
    }

    /// Returns whether a try of an unfinished call, or the end of the database, has settled its reply.
    fn is_told_by_tries(&self, call: u32) -> bool
        requires stands { Stands self.now }
        requires unfinished { is_unfinished (past self.now) call ≡ true }
        ensures { result ≡ is_some (told_by_tries (past self.now) (work (past self.now) call)
            (tries (past self.now) call)) }
    {
        row::is_told_trying(&self.calls, call, self.closed_by)
    }

    /// Returns whether the lending of a connection to an unfinished call settled its reply.
    fn is_told_as_lent(&self, call: u32) -> bool
        requires stands { Stands self.now }
        requires unfinished { is_unfinished (past self.now) call ≡ true }
        ensures { result ≡ is_some (told_at_lending (past self.now) call) }
    {
        row::is_told_as_lent(&self.calls, call, self.caps.pinger)
    }

    /// Returns whether an unfinished call asks for a connection, has a try left for that, and neither has nor
    /// wants one.
    fn is_to_ask(&self, call: u32) -> bool
        requires stands { Stands self.now }
        requires unfinished { is_unfinished (past self.now) call ≡ true }
        ensures { result ≡ (asks (work (past self.now) call)
            && (may_try (past self.now) call && not (wants call (pool (past self.now))))) }
    {
        self.asks(call) && self.may_try(call) && !self.pool.wants(call)
    }

    /// Returns whether an unfinished call has a try left, and nothing from an earlier try.
    fn may_try(&self, call: u32) -> bool
        requires stands { Stands self.now }
        requires unfinished { is_unfinished (past self.now) call ≡ true }
        ensures { result ≡ may_try (past self.now) call }
    {
        row::has_another_try(&self.calls, call)
            && self.lent_or_opened(call).is_none()
            && !self.has_handed_out(call)
    }

    /// Returns whether an unfinished call asks again after a refusal.
    fn asks_again(&self, call: u32) -> bool
        requires stands { Stands self.now }
        requires unfinished { is_unfinished (past self.now) call ≡ true }
        ensures { result ≡ asks_again (tries (past self.now) call) }
    {
        row::asks_again(&self.calls, call)
    }

    /// Returns whether the next try of an unfinished call is its last.
    pub(crate) fn asks_last(&self, call: u32) -> bool
        requires stands { Stands self.now }
        requires unfinished { is_unfinished (past self.now) call ≡ true }
        ensures { result ≡ asks_last (tries (past self.now) call) }
    {
        row::asks_last(&self.calls, call)
    }
}

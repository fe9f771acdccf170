//! Questions about calls and connections. Each returns the word of a reader of the history.
ghost use Rattle.std.specs.Prelude.{◌≡◌, ◌<◌, ◌==◌, true, is_some, length, find, IfOk, OnErr};
ghost use Rattle.dsql_laws_calls.specs.journal.Readers.{went_bad};
ghost use Rattle.dsql_laws_calls.specs.works.Limits.{most_within_a_step};
ghost use Rattle.dsql_engine_desk.specs.Desk.{past, Stands};
ghost use Rattle.dsql_engine_calls.specs.Calls.{options_of, rows_worked, tx_worked};
ghost use Rattle.dsql_engine_exchanged.specs.Filled.{carries_statement, refilled};
ghost use Rattle.dsql_laws_calls.specs.history.Readers.Calls.{call_record, decided, is_busy, next_call, site};
ghost use Rattle.dsql_laws_calls.specs.history.Readers.Clients.{call_of, client_of};
ghost use Rattle.dsql_laws_calls.specs.history.Readers.Controls.{taken};
ghost use Rattle.dsql_laws_calls.specs.history.Readers.HandedOut.{are_live, are_over, ender, rows_by};
ghost use Rattle.dsql_laws_calls.specs.history.Readers.Pool.{is_home, smallest, home, place, pool};
ghost use Rattle.dsql_laws_calls.specs.history.Readers.Journals.{journal};
ghost use Rattle.dsql_laws_calls.specs.history.Readers.Unfinished.{is_unfinished, unfinished};
ghost use Rattle.dsql_laws_calls.specs.history.Readers.Works.{aim_of, asks, borrower, is_fetch, owner_of, scope, work};
ghost use Rattle.dsql_laws_calls.specs.history.Rules.Sent.{asked_by, is_reset_due};
ghost use Rattle.dsql_laws_calls.specs.pool.Places.{is_for, is_lent};
ghost use Rattle.dsql_laws_calls.specs.pool.Pooled.{next_tenure};
ghost use Rattle.dsql_laws_calls.specs.wait.Requests.{waits};

use crate::desk::Desk;
use dsql_engine_calls::row;
use dsql_engine_exchanged::{Leave, Statement};
use dsql_engine_pooling::places;
use dsql_laws_calls::{Aim, Control, Items, Level, Memory, Owner, Permit, Place, Scope, Txt};
use std::alloc::Global;

#[tactic(auto, unfolding(crate::specs::Desk::Stands))]
impl Desk {
    /// Returns the unfinished call of a client; 0 for none.
    pub fn call_of(&self, client: u8) -> u32
        requires { Stands self.now }
        ensures { result ≡ call_of (past self.now) client }
    {
        match self.found_call(client) {
            Some(call) => call,
            None => 0,
        }
    }

    /// Returns the limit or moment that takes effect: a moment before the present one counts as the present
    /// one.
    pub(crate) fn taken(&self, control: Control) -> Control
        requires { Stands self.now }
        ensures { result ≡ taken (past self.now) control }
    {
        match control {
            Control::Tick(now) => Control::Tick(self.pool.moment().max(now)),
            Control::Set(setting, n) => Control::Set(setting, n),
        }
    }

    fn found_call(&self, client: u8) -> Option<u32>
        requires { Stands self.now }
        ensures { result ≡ find (λ n. client_of (past self.now) n == client) (unfinished (past self.now)) }
    {
        self.unfinished
            .iter()
            .copied()
            .find(|call| self.client_of(*call) == client)
    }

    /// Returns the client that made a call.
    pub fn client_of(&self, call: u32) -> u8
        requires { Stands self.now }
        ensures { result ≡ client_of (past self.now) call }
    {
        row::client_of(&self.calls, call)
    }

    /// Returns whether a client has an unfinished call.
    pub fn is_busy(&self, client: u8) -> bool
        requires { Stands self.now }
        ensures { result ≡ is_busy client (past self.now) }
    {
        self.unfinished
            .iter()
            .any(|call| self.client_of(*call) == client)
    }

    /// Returns whether a call has entered and has no reply yet.
    pub fn is_unfinished(&self, call: u32) -> bool
        requires { Stands self.now }
        ensures { result ≡ is_unfinished (past self.now) call }
    {
        self.unfinished.iter().any(|other| *other == call)
    }

    /// Returns the number of the next call.
    #[tactic(auto, using(crate::proofs::FewCalls::rows_counted, crate::proofs::FewCalls::few_rows), unfolding(crate::specs::Desk::Stands))]
    pub fn next_call(&self) -> u32
        requires stands { Stands self.now }
        requires few { length (past self.now) < most_within_a_step }
        ensures { result ≡ next_call (past self.now) }
    {
        self.calls.len() as u32
    }

    /// Returns the place of a connection, if it is open.
    pub fn place(&self, conn: u32) -> Option<Place>
        requires { Stands self.now }
        ensures { result ≡ place (past self.now) conn }
    {
        self.pool.place(conn)
    }

    /// Returns whether a lent connection is known to be bad.
    pub fn is_known_bad(&self, conn: u32) -> bool
        requires stands { Stands self.now }
        requires lent { is_lent (place (past self.now) conn) ≡ true }
        ensures { result ≡ went_bad (journal (past self.now) conn) }
    {
        self.is_bad(conn)
    }

    /// Returns the number of a connection's next tenure.
    #[tactic(auto, using(crate::proofs::Present::few_openings), unfolding(crate::specs::Desk::Stands))]
    pub fn next_tenure(&self, conn: u32) -> u32
        requires stands { Stands self.now }
        requires few { length (past self.now) < most_within_a_step }
        ensures { result ≡ next_tenure (pool (past self.now)) conn }
    {
        self.pool.next_tenure(conn)
    }

    /// Returns the connection that is lent to a call or is being opened for it; 0 for none.
    pub fn home(&self, call: u32) -> u32
        requires { Stands self.now }
        ensures { result ≡ home (past self.now) call }
    {
        match self.lent_or_opened(call) {
            Some(conn) => conn,
            None => 0,
        }
    }

    /// Returns the connection that is lent to a call or is being opened for it, if there is one.
    pub(crate) fn lent_or_opened(&self, call: u32) -> Option<u32>
        requires { Stands self.now }
        ensures { result ≡ smallest (is_home call) (pool (past self.now)) }
    {
        places::number_of(places::home(self.pool.conns(), call))
    }

    /// Returns the connection that a call uses; 0 if it has none yet.
    pub fn site(&self, call: u32) -> u32
        requires { Stands self.now }
        ensures { result ≡ site (past self.now) call }
    {
        self.home(self.borrower(call))
    }

    /// Returns the call to which the connection that a call uses is lent.
    pub fn borrower(&self, call: u32) -> u32
        requires { Stands self.now }
        ensures { result ≡ borrower (past self.now) call }
    {
        row::borrower_of(&self.calls, call)
    }

    /// Returns the owner of a call's tenures: the transaction that it begins, otherwise the call itself.
    pub fn owner(&self, call: u32) -> Owner
        requires { Stands self.now }
        ensures { result ≡ owner_of (past self.now) call }
    {
        row::owner_of(&self.calls, call)
    }

    /// Returns where the statement of a call is carried out.
    pub(crate) fn scope(&self, call: u32) -> Scope
        requires { Stands self.now }
        ensures { result ≡ scope (work (past self.now) call) }
    {
        row::scope_of(&self.calls, call)
    }

    /// Returns the options with which a call begins a transaction, if it begins one.
    pub(crate) fn options(&self, call: u32) -> Option<(Level, bool)>
        requires { Stands self.now }
        ensures { result ≡ options_of (work (past self.now) call) }
    {
        row::options_of(&self.calls, call)
    }

    /// Returns the statement of a call. Serves proofs alone.
    pub fn statement(&self, call: u32) -> Statement
        requires { Stands self.now }
        ensures { result ≡ asked_by (past self.now) call }
    {
        let aim = self.aim(call);
        match self.calls.get(call as usize) {
            Some(row) => Statement::of(&row.call.text, &row.call.params, aim),
            None => Statement::none(aim),
        }
    }

    /// Returns the permit for this `leave`, with copies of the text and the parameters of its call. Takes no
    /// memory for a driver call without a statement.
    pub fn permit(&self, alloc: Global, leave: &Leave) -> Result<Permit, Memory>
        requires { Stands self.now }
        ensures ok { IfOk result (λ permit. permit
            ≡ record leave.now {
              call = refilled (asked_by (past self.now) leave.now.call_no).text
                  (asked_by (past self.now) leave.now.call_no).params leave.now.call;
            }) }
        ensures err { OnErr result (carries_statement leave.now.call ≡ true) }
    {
        match self.calls.get(leave.call_no() as usize) {
            Some(row) => leave.permit(&row.call.text, &row.call.params),
            None => leave.permit(&Txt::new(String::new(alloc)), &Items::none(alloc)),
        }
    }

    /// Returns whether a call waits for a connection.
    pub fn waits(&self, call: u32) -> bool
        requires { Stands self.now }
        ensures { result ≡ waits call (pool (past self.now)).waiting }
    {
        self.pool.waits(call)
    }

    /// Returns the connection that is being opened for a call, if one is.
    pub fn opening_for(&self, call: u32) -> Option<u32>
        requires { Stands self.now }
        ensures { result ≡ smallest (is_for call) (pool (past self.now)) }
    {
        places::number_of(places::opening_for(self.pool.conns(), call))
    }

    /// Returns whether the first driver call on a connection is a Reset.
    pub(crate) fn is_reset_due(&self, conn: u32) -> bool
        requires { Stands self.now }
        ensures { result ≡ is_reset_due (past self.now) conn }
    {
        self.caps.resetter && places::uses(self.pool.conns(), conn) >= 2
    }

    /// Returns what the layer does with the text of a call.
    pub(crate) fn aim(&self, call: u32) -> Aim
        requires { Stands self.now }
        ensures { result ≡ aim_of (work (past self.now) call) }
    {
        row::aim_of(&self.calls, call)
    }

    /// Returns how many parameters the statement of a call has.
    pub(crate) fn params(&self, call: u32) -> usize
        requires { Stands self.now }
        ensures { result ≡ length (call_record (past self.now) call).params }
    {
        row::params_of(&self.calls, call)
    }

    /// Returns the call on whose rows a call works, if it works on rows.
    pub(crate) fn rows_worked(&self, call: u32) -> Option<u32>
        requires { Stands self.now }
        ensures { result ≡ rows_worked (work (past self.now) call) }
    {
        row::rows_worked(&self.calls, call)
    }

    /// Returns whether a call fetches a row.
    pub(crate) fn fetches(&self, call: u32) -> bool
        requires { Stands self.now }
        ensures { result ≡ is_fetch (work (past self.now) call) }
    {
        row::fetches(&self.calls, call)
    }

    /// Returns whether a call asks for a connection of its own.
    pub(crate) fn asks(&self, call: u32) -> bool
        requires { Stands self.now }
        ensures { result ≡ asks (work (past self.now) call) }
    {
        row::asks(&self.calls, call)
    }

    /// Returns whether a call has settled its reply itself.
    pub(crate) fn has_decided(&self, call: u32) -> bool
        requires { Stands self.now }
        ensures { result ≡ is_some (decided (past self.now) call) }
    {
        row::has_decided(&self.calls, call)
    }

    /// Returns the transaction that a call is to end, if it is to end one.
    pub(crate) fn tx_worked(&self, call: u32) -> Option<u32>
        requires { Stands self.now }
        ensures { result ≡ tx_worked (work (past self.now) call) }
    {
        row::tx_worked(&self.calls, call)
    }

    /// Returns the call that ended the rows of a call; 0 for none.
    pub(crate) fn ender(&self, call: u32) -> u32
        requires { Stands self.now }
        ensures { result ≡ ender (past self.now) call }
    {
        row::ender_of(&self.calls, call)
    }

    /// Returns whether a call handed out rows. It looks them up only if the call is to hand rows out.
    pub(crate) fn has_handed_out(&self, call: u32) -> bool
        requires { Stands self.now }
        ensures { result ≡ is_some (rows_by (past self.now) call) }
    {
        match self.aim(call) {
            Aim::HandOut => self.rows.was_made(call),
            _ => false,
        }
    }

    /// Returns whether the rows of a call are live.
    #[tactic(auto, unfolding(crate::specs::Desk::Stands))]
    pub(crate) fn are_live(&self, call: u32) -> bool
        requires { Stands self.now }
        ensures { result ≡ are_live (past self.now) call }
    {
        self.has_handed_out(call) && self.rows.is_live(call)
    }

    /// Returns whether a call handed out rows that have ended.
    #[tactic(auto, unfolding(crate::specs::Desk::Stands))]
    pub(crate) fn are_over(&self, call: u32) -> bool
        requires { Stands self.now }
        ensures { result ≡ are_over (past self.now) call }
    {
        self.has_handed_out(call) && !self.rows.is_live(call)
    }
}

//! The driver calls that end a transaction: its rows are closed first, and then its Commit or Rollback is sent.
ghost use Rattle.std.specs.Prelude.{◌≡◌, true, List, option_map};
ghost use Rattle.dsql_laws_calls.specs.journal.declared.entry.Entry.{Entry as EntryOf};
ghost use Rattle.dsql_engine_desk.specs.Desk.{past, Stands};
ghost use Rattle.dsql_engine_calls.specs.Settling.{ended_before};
ghost use Rattle.dsql_engine_desk.specs.Ending.{closing_in};
ghost use Rattle.dsql_engine_lines.specs.Inside.{works_inside};
ghost use Rattle.dsql_engine_desk.specs.Next.{there_at};
ghost use Rattle.dsql_engine_lines.specs.Sent.{sent_on};
ghost use Rattle.dsql_engine_exchanged.specs.Ending.{ending_in};
ghost use Rattle.dsql_engine_exchanged.specs.Filled.{filled};
ghost use Rattle.dsql_laws_calls.specs.history.Readers.Calls.{has_begun_to_send};
ghost use Rattle.dsql_laws_calls.specs.history.Readers.HandedOut.{is_late};
ghost use Rattle.dsql_laws_calls.specs.history.Readers.Transactions.{goes_on, is_begun, tx_end, tx_ender};
ghost use Rattle.dsql_laws_calls.specs.history.Readers.Works.{scope, work, works};
ghost use Rattle.dsql_laws_calls.specs.history.Rules.Ending.{end_after, ending, first_closing};
ghost use Rattle.dsql_laws_calls.specs.works.Line.{Asked};

use crate::desk::Desk;
use dsql_engine_calls::row;
use dsql_engine_exchanged::{BareCall, Ending};
use dsql_laws_calls::{Scope, TxEnd};

#[tactic(auto, using(crate::proofs::ToldBeside::scope_inside), unfolding(crate::specs::Desk::Stands))]
impl Desk {
    /// Returns the driver call that is still to be sent to end a transaction, if something has ended it.
    pub(crate) fn ending(&self, tx: u32) -> Option<BareCall>
        requires { Stands self.now }
        ensures { (asked : Asked) → option_map (filled asked) result ≡ ending (past self.now) tx }
    {
        let end = self.tx_end(tx)?;
        let conn = self.lent_under(tx)?;
        match self.first_closing(tx) {
            Some(bare) => Some(bare),
            None => self.ends_next(conn, end),
        }
    }

    /// Returns the first driver call that closes rows handed out in a transaction.
    fn first_closing(&self, tx: u32) -> Option<BareCall>
        requires { Stands self.now }
        ensures { (asked : Asked) → option_map (filled asked) result
            ≡ first_closing (past self.now) tx 0 (works (past self.now)) }
    {
        for query in tx as usize..self.calls.len() {
            if let Some(bare) = self.closing_in(tx, query as u32) {
                return Some(bare);
            }
        }
        None
    }

    /// Returns the driver call that closes the rows of a call, if the call handed them out in this transaction.
    fn closing_in(&self, tx: u32, query: u32) -> Option<BareCall>
        requires { Stands self.now }
        ensures { (asked : Asked) → option_map (filled asked) result ≡ closing_in (past self.now) tx query }
    {
        if row::hands_out_in(&self.calls, query, tx) {
            self.close_due(query)
        } else {
            None
        }
    }

    /// Returns the driver call that ends a transaction in this way on a connection, after its rows are closed.
    fn ends_next(&self, conn: u32, end: TxEnd) -> Option<BareCall>
        requires { Stands self.now }
        ensures { (asked : Asked) (heard : List EntryOf) → ending_in heard ≡ (there_at (past self.now) conn).ending
            → option_map (filled asked) result
            ≡ end_after (past self.now) (there_at (past self.now) conn).ending.bad end heard }
    {
        self.ending_on(conn).next(self.caps, end)
    }

    /// Returns what was heard on a connection about the end of the transaction to which it is lent.
    pub(crate) fn ending_on(&self, conn: u32) -> Ending
        requires { Stands self.now }
        ensures { result ≡ (there_at (past self.now) conn).ending }
    {
        match self.lines.there.get(conn as usize) {
            Some(there) => there.ending,
            None => Ending::new(),
        }
    }

    /// Returns what has ended a transaction, if something has.
    pub(crate) fn tx_end(&self, tx: u32) -> Option<TxEnd>
        requires { Stands self.now }
        ensures { result ≡ tx_end (past self.now) tx }
    {
        if !self.txs.was_made(tx) {
            return None;
        }
        match self.txs.admit(tx) {
            Ok(()) => None,
            Err(done) => Some(done.by),
        }
    }

    /// Returns whether a call has begun a transaction. It looks it up only if the call is to begin one.
    pub(crate) fn is_begun(&self, call: u32) -> bool
        requires { Stands self.now }
        ensures { result ≡ is_begun (past self.now) call }
    {
        match self.options(call) {
            Some(_) => self.txs.was_made(call),
            None => false,
        }
    }

    /// Returns whether the transaction of a call goes on.
    pub(crate) fn tx_goes_on(&self, call: u32) -> bool
        requires { Stands self.now }
        ensures { result ≡ goes_on (past self.now) call }
    {
        self.is_begun(call) && self.tx_end(call).is_none()
    }

    /// Returns the call that ended a transaction; 0 for none.
    pub(crate) fn tx_ender(&self, tx: u32) -> u32
        requires { Stands self.now }
        ensures { result ≡ tx_ender (past self.now) tx }
    {
        row::tx_ender_of(&self.calls, tx)
    }

    /// Returns whether a call works in a transaction that has ended.
    pub(crate) fn is_late(&self, call: u32) -> bool
        requires { Stands self.now }
        ensures { result ≡ is_late (past self.now) (scope (work (past self.now) call)) }
    {
        match self.scope(call) {
            Scope::Db => false,
            Scope::Held(tx) => self.tx_end(tx).is_some(),
        }
    }

    /// Returns what has ended the transaction in which a call works and has sent nothing. Returns `None` if
    /// nothing has, or the call has sent something there.
    pub(crate) fn ended_before(&self, call: u32) -> Option<TxEnd>
        requires { Stands self.now }
        ensures { result ≡ ended_before (past self.now) call }
    {
        match self.scope(call) {
            Scope::Held(tx) if !self.has_begun(call) => self.tx_end(tx),
            _ => None,
        }
    }

    /// Returns whether a call that works in a transaction has sent something there.
    pub(crate) fn has_begun(&self, call: u32) -> bool
        requires stands { Stands self.now }
        requires inside { works_inside (past self.now) call ≡ true }
        ensures { result ≡ has_begun_to_send (past self.now) call }
    {
        let conn = self.site(call);
        conn != 0 && self.sent_on(call) == conn
    }

    fn sent_on(&self, call: u32) -> u32
        requires { Stands self.now }
        ensures { result ≡ sent_on (past self.now) call }
    {
        match self.sent.get(call as usize) {
            Some(conn) => *conn,
            None => 0,
        }
    }
}

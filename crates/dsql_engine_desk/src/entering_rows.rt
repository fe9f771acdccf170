//! What the desk records of a call that enters to work on rows.
ghost use Rattle.std.specs.Prelude.{◌≡◌, ◌<◌, Some, IfOk, IfSome, IfNone, true, length};
ghost use Rattle.dsql_laws_calls.specs.works.Limits.{most_within_a_step};
ghost use Rattle.dsql_engine_desk.specs.Desk.{past, Stands};
ghost use Rattle.dsql_engine_desk.specs.Entering.{IsNamed, NoneNamed};
ghost use Rattle.dsql_engine_effects.specs.Starts.{Starts};
ghost use Rattle.dsql_laws_calls.specs.history.Readers.Calls.{told_at_entry};
ghost use Rattle.dsql_laws_calls.specs.history.Readers.Decisions.{scan_reply};
ghost use Rattle.dsql_laws_calls.specs.history.Readers.HandedOut.{handed_out};
ghost use Rattle.dsql_laws_calls.specs.history.Readers.Works.{rows_maker, works};
ghost use Rattle.dsql_laws_calls.specs.history.declared.event.Op.TheVariants as ops;
ghost use Rattle.dsql_laws_calls.specs.rows.OpenRows.{rows_of, scan_of, was_made};

use crate::desk::Desk;
use dsql_engine_calls::{CallStart, NoRoom};
use dsql_engine_effects::starting::{fault_reply, over_rows, scan_fault};
use dsql_laws_calls::{Dest, Reply, RowsFault, Txt, Work};
use std::alloc::Global;

#[tactic(auto, unfolding(crate::specs::Desk::Stands))]
impl Desk {
    /// Returns what the desk records of a `Rows.Next`.
    pub(crate) fn entering_next(&self, alloc: Global, label: &Txt) -> Result<CallStart, NoRoom>
        requires stands { Stands self.now }
        requires few { length (past self.now) < most_within_a_step }
        ensures { IfOk result (λ it. Starts (past self.now) (ops.Next label.now) it) }
    {
        let decided = match self.rows_named(label) {
            None => Some(Reply::Absent(label.copy()?)),
            Some(query) if self.rows.is_live(query) => None,
            Some(_) => Some(Reply::Truth(false)),
        };
        Ok(over_rows(alloc, Work::Fetch(self.rows_maker(label)), None, decided))
    }

    /// Returns what the desk records of a `Rows.Close`.
    pub(crate) fn entering_close(&self, alloc: Global, label: &Txt) -> Result<CallStart, NoRoom>
        requires stands { Stands self.now }
        requires few { length (past self.now) < most_within_a_step }
        ensures { IfOk result (λ it. Starts (past self.now) (ops.RowsClose label.now) it) }
    {
        let closes = self.rows_named(label);
        let decided = self.told_closing(label, closes)?;
        Ok(over_rows(alloc, Work::Close(self.rows_maker(label)), closes, decided))
    }

    /// Returns the reply that a call gets at once if it closes the rows of the label. `rows` is the call that
    /// handed out those rows, if there are any.
    fn told_closing(&self, label: &Txt, rows: Option<u32>) -> Result<Option<Reply>, NoRoom>
        requires stands { Stands self.now }
        requires some { IfSome rows (λ query. IsNamed (past self.now) label.now query) }
        requires none { IfNone rows (NoneNamed (past self.now) label.now) }
        ensures { IfOk result (λ reply. reply ≡ told_at_entry (past self.now) (ops.RowsClose label.now)) }
    {
        match rows {
            None => Ok(Some(Reply::Absent(label.copy()?))),
            Some(query) if self.rows.is_live(query) => Ok(None),
            Some(_) => Ok(Some(Reply::Ok)),
        }
    }

    /// Returns what the desk records of a `Rows.Scan`.
    pub(crate) fn entering_scan(
        &self,
        alloc: Global,
        label: &Txt,
        dests: &[Dest],
    ) -> Result<CallStart, NoRoom>
        requires stands { Stands self.now }
        requires few { length (past self.now) < most_within_a_step }
        ensures { IfOk result (λ it. Starts (past self.now) (ops.Scan label.now dests.now) it) }
    {
        let reply = match self.rows_named(label) {
            None => Reply::Absent(label.copy()?),
            Some(query) => self.scan_reply(query, dests)?,
        };
        Ok(over_rows(alloc, Work::Look, None, Some(reply)))
    }

    /// Returns what the desk records of a `Rows.Err`.
    pub(crate) fn entering_err(&self, alloc: Global, label: &Txt) -> Result<CallStart, NoRoom>
        requires stands { Stands self.now }
        requires few { length (past self.now) < most_within_a_step }
        ensures { IfOk result (λ it. Starts (past self.now) (ops.Err label.now) it) }
    {
        let reply = match self.rows_named(label) {
            None => Reply::Absent(label.copy()?),
            Some(query) => fault_reply(self.rows.ended(query))?,
        };
        Ok(over_rows(alloc, Work::Look, None, Some(reply)))
    }

    /// Returns the first call whose rows have the label; 0 if there is none.
    pub(crate) fn rows_maker(&self, label: &Txt) -> u32
        requires { Stands self.now }
        ensures { result ≡ rows_maker (works (past self.now)) label.now }
    {
        match self.labels.get(label.as_str()) {
            Some(call) => *call,
            None => 0,
        }
    }

    /// Returns the call whose rows have the label, if the rows are there and the call has replied.
    fn rows_named(&self, label: &Txt) -> Option<u32>
        requires stands { Stands self.now }
        requires few { length (past self.now) < most_within_a_step }
        ensures some { IfSome result (λ query. IsNamed (past self.now) label.now query) }
        ensures none { IfNone result (NoneNamed (past self.now) label.now) }
    {
        let query = self.rows_maker(label);
        if !self.is_unfinished(query) && self.rows.was_made(query) {
            Some(query)
        } else {
            None
        }
    }

    /// Returns the reply of a scan of rows. Fails with `NoRoom` if there is no memory.
    fn scan_reply(&self, query: u32, dests: &[Dest]) -> Result<Reply, NoRoom>
        requires stands { Stands self.now }
        requires made { was_made query (handed_out (past self.now)) ≡ true }
        ensures { IfOk result (λ reply. IfSome (rows_of query (handed_out (past self.now)))
            (λ rows. scan_reply (scan_of rows dests.now) ≡ Some reply)) }
    {
        match self.rows.scan(query, dests) {
            Ok(cells) => Ok(Reply::Cells(cells)),
            Err(RowsFault::RowsClosed(by)) => Ok(Reply::RowsClosed(by)),
            Err(RowsFault::NoNextYet) => Ok(Reply::NoNextYet),
            Err(RowsFault::Scan(fault)) => scan_fault(fault),
            Err(RowsFault::Memory) => Err(NoRoom),
        }
    }
}

//! The next driver call in the line of a call, decided by what was heard there.
ghost use Rattle.std.specs.Prelude.{◌≡◌, ◌≢◌, true, List, Some, is_some, option_map};
ghost use Rattle.dsql_laws_calls.specs.driver.declared.call.DriverCall.TheVariants.{Begin};
ghost use Rattle.dsql_laws_calls.specs.journal.declared.entry.Entry.{Entry as EntryOf};
ghost use Rattle.dsql_engine_desk.specs.Desk.{past, Stands};
ghost use Rattle.dsql_engine_desk.specs.Next.{has_line, lent_under, there_at};
ghost use Rattle.dsql_engine_exchanged.specs.Beginning.{beginning_in};
ghost use Rattle.dsql_engine_exchanged.specs.Filled.{filled};
ghost use Rattle.dsql_engine_exchanged.specs.Inside.{inside_told};
ghost use Rattle.dsql_laws_calls.specs.history.Readers.Course.{caps};
ghost use Rattle.dsql_laws_calls.specs.history.Readers.HandedOut.{rows_by};
ghost use Rattle.dsql_laws_calls.specs.history.Readers.Works.{borrower, work};
ghost use Rattle.dsql_laws_calls.specs.history.Rules.Sent.{asked_by, begin_line, is_reset_due, line_of};
ghost use Rattle.dsql_engine_lines.specs.Inside.{line_at, lines};
ghost use Rattle.dsql_engine_exchanged.specs.Lines.{line_told};
ghost use Rattle.dsql_laws_calls.specs.works.Line.{Asked};

use crate::desk::Desk;
use dsql_engine_exchanged::{BareCall, Beginning, Exchanged, Inside, Line};
use dsql_laws_calls::{Level, Place, Scope, Wish};

#[tactic(auto, unfolding(crate::specs::Desk::Stands))]
impl Desk {
    /// Returns the next driver call over the rows that a call made, for this wish.
    pub(crate) fn next_over(&self, query: u32, wish: Wish) -> Option<BareCall>
        requires stands { Stands self.now }
        requires made { is_some (rows_by (past self.now) query) ≡ true }
        ensures { (asked : Asked) → wish ≢ Wish.Nothing → option_map (filled asked) result
            ≡ line_of (past self.now) query wish }
    {
        self.next(query, wish)
    }

    /// Returns the next driver call in the line of a call, for this wish about the rows that it handed out.
    pub(crate) fn next(&self, call: u32, wish: Wish) -> Option<BareCall>
        requires stands { Stands self.now }
        requires line { has_line (work (past self.now) call) ≡ true }
        ensures { option_map (filled (asked_by (past self.now) call)) result ≡ line_of (past self.now) call wish }
    {
        match self.lent_under(self.borrower(call)) {
            Some(conn) => self.next_on(conn, call, wish),
            None => None,
        }
    }

    /// Returns the connection that is lent to a call or its transaction, if one is.
    pub(crate) fn lent_under(&self, call: u32) -> Option<u32>
        requires { Stands self.now }
        ensures { result ≡ lent_under (past self.now) call }
    {
        let conn = self.home(call);
        match self.place(conn) {
            Some(Place::Lent(_, owner)) if owner.number() == call => Some(conn),
            _ => None,
        }
    }

    fn next_on(&self, conn: u32, call: u32, wish: Wish) -> Option<BareCall>
        requires stands { Stands self.now }
        requires line { has_line (work (past self.now) call) ≡ true }
        requires lent { lent_under (past self.now) (borrower (past self.now) call) ≡ Some conn }
        ensures { option_map (filled (asked_by (past self.now) call)) result ≡ line_of (past self.now) call wish }
    {
        match self.options(call) {
            Some((level, read_only)) => self.begins_next(conn, level, read_only),
            None => match self.scope(call) {
                Scope::Db => self.sends_next(conn, call, wish),
                Scope::Held(_) => self.goes_next(conn, call, wish),
            },
        }
    }

    /// Returns the next driver call there that begins a transaction with these options.
    fn begins_next(&self, conn: u32, level: Level, read_only: bool) -> Option<BareCall>
        requires { Stands self.now }
        ensures { (asked : Asked) (line : List EntryOf) → beginning_in line ≡ (there_at (past self.now) conn).beginning
            → option_map (filled asked) result
            ≡ begin_line (caps (past self.now)) (is_reset_due (past self.now) conn) (Begin level read_only) line }
    {
        let reset_due = self.is_reset_due(conn);
        self.beginning_on(conn)
            .next(self.caps, reset_due, level, read_only)
    }

    /// Returns what was heard on a connection about the begin of the transaction to which it is lent.
    fn beginning_on(&self, conn: u32) -> Beginning
        requires { Stands self.now }
        ensures { result ≡ (there_at (past self.now) conn).beginning }
    {
        match self.lines.there.get(conn as usize) {
            Some(there) => there.beginning,
            None => Beginning::new(),
        }
    }

    /// Returns the next driver call there of a call on the database.
    fn sends_next(&self, conn: u32, call: u32, wish: Wish) -> Option<BareCall>
        requires { Stands self.now }
        ensures { option_map (filled (asked_by (past self.now) call)) result
            ≡ line_told (caps (past self.now)) (is_reset_due (past self.now) conn)
            (asked_by (past self.now) call) wish (there_at (past self.now) conn).made }
    {
        let line = Line {
            caps: self.caps,
            reset_due: self.is_reset_due(conn),
            wish,
        };
        let aim = self.aim(call);
        let count = self.params(call);
        match self.lines.there.get(conn as usize) {
            Some(there) => line.next(aim, count, &there.made),
            None => line.next(aim, count, &Exchanged::new()),
        }
    }

    /// Returns the next driver call there of a call in a transaction.
    fn goes_next(&self, conn: u32, call: u32, wish: Wish) -> Option<BareCall>
        requires { Stands self.now }
        ensures { option_map (filled (asked_by (past self.now) call)) result
            ≡ inside_told (caps (past self.now)) (there_at (past self.now) conn).ending.bad
            (asked_by (past self.now) call) wish (line_at (lines (past self.now)).calls call).heard }
    {
        let inside = Inside {
            caps: self.caps,
            wish,
            bad: self.is_bad(conn),
        };
        let aim = self.aim(call);
        let count = self.params(call);
        match self.lines.calls.get(call as usize) {
            Some(line) => inside.next(aim, count, &line.heard),
            None => inside.next(aim, count, &Exchanged::new()),
        }
    }

    /// Returns whether a connection is known to have gone bad since it was lent.
    pub(crate) fn is_bad(&self, conn: u32) -> bool
        requires { Stands self.now }
        ensures { result ≡ (there_at (past self.now) conn).ending.bad }
    {
        self.ending_on(conn).bad
    }
}

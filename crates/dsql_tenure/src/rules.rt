//! The rules of a journal, each by the tables. They say which entries may come next, whatever their answers.
ghost use Rattle.std.specs.Prelude.{◌≡◌, ◌<◌, ◌≤◌, ◌&&◌, ◌||◌, ◌==◌, not, nat_lt, Bool, true, IsTrue};
ghost use Rattle.std.specs.List.{list_all, list_any};
ghost use Rattle.dsql_tenure_journal.specs.HandlesAndCursors.{keeps_handles_and_cursors};
ghost use Rattle.dsql_driver.specs.Kinds as driver_kind;
ghost use Rattle.dsql_tenure_journal.specs.Readers as told;
ghost use Rattle.dsql_tenure_journal.specs.Readers.{last_tenure};
ghost use Rattle.dsql_tenure_journal.specs.Tenure as tenure;
ghost use Rattle.dsql_tenure_journal.specs.Transaction as transaction;
ghost use Rattle.dsql_tenure_journal.specs.WholeJournal as whole;
ghost use Rattle.dsql_tenure_asked.specs.Asked.{entry_like};

use crate::tables::Tables;
use dsql_tenure_asked::{Asked, Left, no_cursor_of_tenure, serves_cursor, serves_handle};

/// The order of a whole journal.
#[tactic(auto, unfolding(crate::specs::Tables::Stands))]
impl Tables {
    ghost use Rattle.dsql_tenure.specs.Tables.{past, Stands};
    ghost use Rattle.dsql_tenure.specs.Parts.{keeps_order, hears_more, begins_well, rises, keeps_bad};

    /// Returns whether some entry was answered Bad.
    pub fn went_bad(&self) -> bool
        requires { Stands self.now }
        ensures { result ≡ told.went_bad (past self.now) }
    {
        self.bad_tenure.is_some()
    }

    /// Returns whether the tenure could end here.
    pub fn is_whole_tenure(&self, number: u32) -> bool
        requires stands { Stands self.now }
        requires last { last_tenure (past self.now) ≤ number }
        ensures { result ≡ tenure.is_whole_tenure number (past self.now) }
    {
        let left = Left {
            last_tenure: self.tenure,
            transactions: &self.unended,
            cursors: &self.cursors,
            handles: &self.handles,
        };
        left.could_end(number, self.went_bad())
    }

    /// Returns whether no cursor of that tenure is live.
    pub fn has_closed_cursors(&self, number: u32) -> bool
        requires { Stands self.now }
        ensures { result ≡ tenure.has_closed_cursors number (past self.now) }
    {
        no_cursor_of_tenure(&self.cursors, number)
    }

    /// Returns whether the entry keeps all rules for the order of a whole journal.
    pub fn keeps_whole_journal(&self, asked: &Asked<'_>) -> bool
        requires stands { Stands self.now }
        requires conn { asked.now.conn ≡ self.now.conn }
        ensures { result ≡ whole.keeps_whole_journal (past self.now) (entry_like asked.now) }
    {
        self.keeps_order(asked) && self.keeps_bad(asked)
    }

    fn keeps_order(&self, asked: &Asked<'_>) -> bool
        requires { Stands self.now }
        ensures { result ≡ keeps_order (past self.now) (entry_like asked.now) }
    {
        self.hears_more() && self.begins_well(asked) && self.rises(asked)
    }

    /// Returns whether something is left to be heard.
    fn hears_more(&self) -> bool
        requires { Stands self.now }
        ensures { result ≡ hears_more (past self.now) }
    {
        !self.refused && !self.shut
    }

    /// Returns whether Connect is the first entry, in tenure 1, and only the first.
    fn begins_well(&self, asked: &Asked<'_>) -> bool
        requires { Stands self.now }
        ensures { result ≡ begins_well (past self.now) (entry_like asked.now) }
    {
        if self.so_far.owner.is_none() {
            asked.call.is_connect() && asked.tenure == 1
        } else {
            !asked.call.is_connect()
        }
    }

    /// Returns whether tenures are numbered upward and the last one is whole before another begins.
    fn rises(&self, asked: &Asked<'_>) -> bool
        requires { Stands self.now }
        ensures { result ≡ rises (past self.now) (entry_like asked.now) }
    {
        self.tenure == asked.tenure
            || self.tenure < asked.tenure && self.is_whole_tenure(self.tenure)
    }

    /// Returns whether the entry keeps the rules for Bad and Invalid answers.
    ///
    /// After a Bad answer nothing is tidied, and no tenure begins except that of Shut. After a Valid answered
    /// Invalid there is only Shut.
    fn keeps_bad(&self, asked: &Asked<'_>) -> bool
        requires { Stands self.now }
        ensures { result ≡ keeps_bad (past self.now) (entry_like asked.now) }
    {
        self.tidies_nothing_bad(asked)
            && self.stays_in_bad_tenure(asked)
            && (!self.invalid || asked.call.is_shut())
    }

    fn tidies_nothing_bad(&self, asked: &Asked<'_>) -> bool
        requires { Stands self.now }
        ensures { result ≡ whole.tidies_nothing_bad (past self.now) (entry_like asked.now) }
    {
        !self.went_bad() || !tidies(asked)
    }

    fn stays_in_bad_tenure(&self, asked: &Asked<'_>) -> bool
        requires { Stands self.now }
        ensures { result ≡ whole.stays_in_bad_tenure (past self.now) (entry_like asked.now) }
    {
        match self.bad_tenure {
            Some(tenure) => asked.tenure == tenure || asked.call.is_shut(),
            None => true,
        }
    }
}

/// Handles and cursors.
#[tactic(auto, unfolding(crate::specs::Tables::Stands))]
impl Tables {
    ghost use Rattle.dsql_tenure.specs.Tables.{past, Stands};
    ghost use Rattle.dsql_tenure.specs.Parts.{keeps_handle, keeps_cursor};

    /// Returns whether the entry keeps all rules for handles and cursors.
    pub fn keeps_handles_and_cursors(&self, asked: &Asked<'_>) -> bool
        requires { Stands self.now }
        ensures { result ≡ keeps_handles_and_cursors (past self.now) (entry_like asked.now) }
    {
        self.keeps_handle(asked) && self.keeps_cursor(asked)
    }

    fn keeps_handle(&self, asked: &Asked<'_>) -> bool
        requires { Stands self.now }
        ensures { result ≡ keeps_handle (past self.now) (entry_like asked.now) }
    {
        match asked.call.handle() {
            Some(number) => serves_handle(&self.handles, number, asked),
            None => true,
        }
    }

    fn keeps_cursor(&self, asked: &Asked<'_>) -> bool
        requires { Stands self.now }
        ensures { result ≡ keeps_cursor (past self.now) (entry_like asked.now) }
    {
        match asked.call.cursor() {
            Some(number) => serves_cursor(&self.cursors, number, asked),
            None => true,
        }
    }
}

/// Returns whether the call is a Reset, Valid, CloseStmt or CloseRows.
fn tidies(asked: &Asked<'_>) -> bool
    ensures { result ≡ (driver_kind.is_reset asked.now.call.now || driver_kind.is_valid asked.now.call.now
        || driver_kind.is_close_stmt asked.now.call.now || driver_kind.is_close_rows asked.now.call.now) }
{
    asked.call.is_reset()
        || asked.call.is_valid()
        || asked.call.is_close_stmt()
        || asked.call.is_close_rows()
}

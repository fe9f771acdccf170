//! Transactions, by the tables. They say which entries may come next.
ghost use Rattle.std.specs.Prelude.{◌≡◌, ◌≢◌, ◌<◌, ◌≤◌, ◌&&◌, ◌||◌, ◌==◌, not, true};
ghost use Rattle.std.specs.List.{list_all};
ghost use Rattle.dsql_tenure_journal.specs.HandlesAndCursors.{keeps_handles_and_cursors as keeps_uses};
ghost use Rattle.dsql_tenure_journal.specs.Readers.{has, begun, cursors};
ghost use Rattle.dsql_tenure_journal.specs.Transaction as rule;
ghost use Rattle.dsql_tenure_journal.specs.WholeJournal.{keeps_whole_journal as keeps_whole};
ghost use Rattle.dsql_tenure_asked.specs.Asked.{entry_like};
ghost use Rattle.dsql_tenure.specs.Open.{open_in, begins_anew, goes_on_open, keeps_number};

use crate::tables::Tables;
use dsql_tenure_asked::{Asked, Cursor, Outcome};

#[tactic(auto, unfolding(crate::specs::Tables::Stands))]
impl Tables {
    ghost use Rattle.dsql_tenure.specs.Tables.{past, Stands};

    /// Returns whether the entry keeps all rules of a transaction.
    pub fn keeps_transaction(&self, asked: &Asked<'_>) -> bool
        requires stands { Stands self.now }
        requires whole { keeps_whole (past self.now) (entry_like asked.now) ≡ true }
        requires uses { keeps_uses (past self.now) (entry_like asked.now) ≡ true }
        ensures { result ≡ rule.keeps_transaction (past self.now) (entry_like asked.now) }
    {
        if asked.tx == 0 {
            return true;
        }
        asked.owner.owns_transaction(asked.tx) && self.keeps_number(asked)
    }

    /// Returns whether the entry keeps the rules for the transaction's number.
    ///
    /// A Begin makes a new transaction. A live handle of the transaction may be closed at any time. All else is
    /// done while the transaction is open.
    fn keeps_number(&self, asked: &Asked<'_>) -> bool
        requires { Stands self.now }
        ensures { result ≡ keeps_number (past self.now) (entry_like asked.now) }
    {
        if asked.call.is_begin() {
            self.begins_anew(asked)
        } else {
            asked.call.is_close_stmt() || self.goes_on_open(asked)
        }
    }

    fn begins_anew(&self, asked: &Asked<'_>) -> bool
        requires { Stands self.now }
        ensures { result ≡ begins_anew (past self.now) (entry_like asked.now) }
    {
        matches!(asked.outcome, Outcome::Done)
            && asked.call_no == asked.tx
            && !self.has_begun(asked.tx)
    }

    fn has_begun(&self, number: u32) -> bool
        requires { Stands self.now }
        ensures { result ≡ has number (begun (past self.now)) }
    {
        self.begun.contains(&number)
    }

    fn goes_on_open(&self, asked: &Asked<'_>) -> bool
        requires { Stands self.now }
        ensures { result ≡ goes_on_open (past self.now) (entry_like asked.now) }
    {
        (asked.call.is_work() || asked.call.is_ending())
            && self.is_open(asked.tx)
            && self.ends_without_cursors(asked)
    }

    /// Returns whether the transaction has no Commit or Rollback.
    pub fn is_open(&self, number: u32) -> bool
        requires { Stands self.now }
        ensures { result ≡ has number (open_in (past self.now)) }
    {
        has_number(&self.unended, number)
    }

    fn ends_without_cursors(&self, asked: &Asked<'_>) -> bool
        requires { Stands self.now }
        ensures { result ≡ rule.ends_without_cursors (past self.now) (entry_like asked.now) }
    {
        !asked.call.is_ending() || self.went_bad() || self.has_no_cursor_of(asked.tx)
    }

    fn has_no_cursor_of(&self, number: u32) -> bool
        requires { Stands self.now }
        ensures { result ≡ list_all (λ c. not (c.tx == number)) (cursors (past self.now)) }
    {
        no_cursor_of_transaction(&self.cursors, number)
    }
}

/// Returns whether the number is in the list.
fn has_number(numbers: &[u32], number: u32) -> bool
    ensures { result ≡ has number numbers.now }
{
    numbers.iter().any(|other| *other == number)
}

/// Returns whether no cursor of that transaction is live.
fn no_cursor_of_transaction(cursors: &[Cursor], number: u32) -> bool
    ensures { result ≡ list_all (λ c. not (c.tx == number)) cursors.now }
{
    cursors.iter().all(|cursor| cursor.tx != number)
}

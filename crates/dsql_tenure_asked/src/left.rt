//! What the entries so far left open, and whether a tenure could end with it.
ghost use Rattle.std.specs.Prelude.{◌≡◌};

use crate::live::{Cursor, Handle, no_cursor_of_tenure, only_call_handles_of_tenure};

/// What was left open: the transactions of the last tenure that have no Commit or Rollback, and all live
/// cursors and handles.
#[derive(Clone, Copy)]
pub struct Left<'a> {
    pub last_tenure: u32,
    pub transactions: &'a [u32],
    pub cursors: &'a [Cursor],
    pub handles: &'a [Handle],
}

impl Left<'_> {
    ghost use Rattle.dsql_tenure_asked.specs.Left as left;

    /// Returns whether that tenure could end here. What is live counts only if nothing was answered Bad.
    pub fn could_end(&self, number: u32, bad: bool) -> bool
        ensures { result ≡ left.could_end self.now number bad }
    {
        self.has_ended(number) && (bad || self.has_closed(number))
    }

    /// Returns whether no transaction of that tenure is open.
    fn has_ended(&self, number: u32) -> bool
        ensures { result ≡ left.has_ended self.now number }
    {
        number != self.last_tenure || self.transactions.is_empty()
    }

    /// Returns whether no cursor of that tenure is live, and no handle except those that calls on the database
    /// prepared.
    fn has_closed(&self, number: u32) -> bool
        ensures { result ≡ left.has_closed self.now number }
    {
        no_cursor_of_tenure(self.cursors, number)
            && only_call_handles_of_tenure(self.handles, number)
    }
}

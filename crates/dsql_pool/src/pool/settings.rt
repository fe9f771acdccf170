//! The open limit and the idle limit.
ghost use Rattle.std.specs.Prelude.{◌≡◌, ◌+◌, ◌<◌, ◌≤◌, [], ◌++◌, length, true, slice_get, Some, OnOk, OnErr};
ghost use Rattle.std.specs.List.{list_all};

use crate::lists::note_closings;
use crate::moves::{CloseCause, Move};
use crate::pool::Pool;
use dsql_time::{Limits, with_idle, with_open};
use dsql_value::Memory;

impl Pool {
    ghost use Rattle.dsql_pool.specs.Pooled.{most_drawn};
    ghost use Rattle.dsql_pool.specs.Moved.{made, moved, limited};
    ghost use Rattle.dsql_pool.specs.Moved as changes;
    ghost use Rattle.dsql_pool.specs.Decisions.{starts_closing, closings_of_setting};
    ghost use Rattle.dsql_pool.specs.Calls.{open_set, moves_open_set, idle_set, moves_idle_set};

    // Replaces the limits.
    pub(super) fn limit(&mut self, limits: Limits)
        ensures pooled { self.new.pooled ≡ limited limits self.old.pooled }
        ensures moves { self.new.moves ≡ self.old.moves }
        ensures spare { self.old.spare ≤ self.new.spare }
        ensures capacity { self.new.capacity ≡ self.old.capacity }
    {
        self.limits = limits;
    }

    // Returns the limits with this open limit.
    fn open_limits(&self, n: i64) -> Limits
        ensures { result ≡ changes.with_open n self.now.pooled.limits }
    {
        with_open(self.limits, n)
    }

    // Returns the limits with this idle limit.
    fn idle_limits(&self, n: i64) -> Limits
        ensures { result ≡ changes.with_idle n self.now.pooled.limits }
    {
        with_idle(self.limits, n)
    }

    // Notes the closings of the idle connections above the idle limit, the longest idle first.
    fn note_surplus(&mut self)
        requires empty { self.old.moves ≡ [] }
        requires space { length self.old.pooled.idle ≤ self.old.capacity }
        ensures moves { self.new.moves ≡ closings_of_setting self.old.pooled }
        ensures len { length self.new.moves ≤ length self.old.pooled.idle }
        ensures pooled { self.new.pooled ≡ self.old.pooled }
        ensures spare { self.old.spare ≤ self.new.spare }
        ensures capacity { self.old.capacity ≤ self.new.capacity }
    {
        let more = self
            .idle
            .len()
            .saturating_sub(self.limits.max_idle as usize);
        note_closings(&self.idle[..more], CloseCause::IdleFull, &mut self.moves);
    }

    fn noted(&self, at: usize) -> Move
        requires { at < length self.now.moves }
        ensures { slice_get self.now.moves at ≡ Some result }
    {
        self.moves[at]
    }

    // Carries out a closing.
    fn close_one(&mut self, closing: Move)
        requires { starts_closing closing ≡ true }
        ensures pooled { self.new.pooled ≡ moved closing self.old.pooled }
        ensures moves { self.new.moves ≡ self.old.moves }
        ensures drawn { self.new.pooled.drawn ≡ self.old.pooled.drawn }
        ensures spare { self.old.spare ≤ self.new.spare }
        ensures capacity { self.new.capacity ≡ self.old.capacity }
    {
        match closing {
            Move::CloseStart { conn, cause } => self.start_closing(conn, cause),
            _ => unreachable!(),
        }
    }

    // Carries out the closings that were noted.
    pub(super) fn close_noted(&mut self)
        requires { list_all starts_closing self.old.moves ≡ true }
        ensures pooled { self.new.pooled ≡ made self.old.moves self.old.pooled }
        ensures moves { self.new.moves ≡ self.old.moves }
        ensures drawn { self.new.pooled.drawn ≡ self.old.pooled.drawn }
        ensures spare { self.old.spare ≤ self.new.spare }
        ensures capacity { self.new.capacity ≡ self.old.capacity }
    {
        for at in 0..self.moves.len() {
            let closing = self.noted(at);
            self.close_one(closing);
        }
    }

    // Replaces the limits and closes the surplus idle connections.
    fn close_surplus(&mut self, limits: Limits)
        requires empty { self.old.moves ≡ [] }
        requires space { length self.old.pooled.idle ≤ self.old.capacity }
        ensures pooled { self.new.pooled ≡ made (closings_of_setting (limited limits self.old.pooled))
            (limited limits self.old.pooled) }
        ensures moves { self.new.moves ≡ closings_of_setting (limited limits self.old.pooled) }
        ensures len { length self.new.moves ≤ length self.old.pooled.idle }
        ensures drawn { self.new.pooled.drawn ≡ self.old.pooled.drawn }
        ensures spare { self.old.spare ≤ self.new.spare }
        ensures capacity { self.old.capacity ≤ self.new.capacity }
    {
        self.limit(limits);
        self.note_surplus();
        self.close_noted();
    }

    /// Sets the idle limit, as Go's `DB.SetMaxIdleConns` does. Surplus idle connections close, the longest idle
    /// first.
    pub fn set_idle(&mut self, n: i64) -> Result<(), Memory>
        ensures moves { OnOk result (self.new.moves ≡ moves_idle_set n self.old.pooled) }
        ensures ok { OnOk result (self.new.pooled
            ≡ made (moves_idle_set n self.old.pooled) (idle_set n self.old.pooled)) }
        ensures full { OnErr result (self.old.spare ≡ 0) }
        ensures err { OnErr result (self.new.pooled ≡ self.old.pooled) }
        ensures spare { self.old.spare ≤ self.new.spare }
    {
        self.make_ready()?;
        let limits = self.idle_limits(n);
        self.close_surplus(limits);
        Ok(())
    }

    /// Sets the open limit, as Go's `DB.SetMaxOpenConns` does. Surplus idle connections close, the longest idle
    /// first. Then the openings that are due begin.
    pub fn set_open(&mut self, n: i64) -> Result<(), Memory>
        requires { self.old.pooled.drawn ≤ most_drawn }
        ensures moves { OnOk result (self.new.moves ≡ moves_open_set n self.old.pooled) }
        ensures ok { OnOk result (self.new.pooled
            ≡ made (moves_open_set n self.old.pooled) (open_set n self.old.pooled)) }
        ensures full { OnErr result (self.old.spare ≡ 0) }
        ensures err { OnErr result (self.new.pooled ≡ self.old.pooled) }
        ensures spare { self.old.spare ≤ self.new.spare }
    {
        self.make_ready()?;
        let limits = self.open_limits(n);
        self.close_surplus(limits);
        self.begin_due();
        Ok(())
    }
}

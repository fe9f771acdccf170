//! Time that passes, and how long a connection may live or stay idle.
ghost use Rattle.std.specs.Prelude.{◌≡◌, ◌≤◌, [], length, OnOk, OnErr};

use crate::lists::note_outdated;
use crate::pool::Pool;
use dsql_time::{Limits, with_idle_time, with_lifetime};
use dsql_value::Memory;

impl Pool {
    ghost use Rattle.dsql_pool.specs.Moved.{made, ticked};
    ghost use Rattle.dsql_pool.specs.Moved as changes;
    ghost use Rattle.dsql_pool.specs.Decisions.{closings_of_tick};
    ghost use Rattle.dsql_pool.specs.Calls.{lifetime_set, moves_lifetime_set, idle_time_set, moves_idle_time_set, moves_ticked};

    // Notes the closings of the idle connections that are past their time, the longest idle first.
    fn note_outdated(&mut self)
        requires empty { self.old.moves ≡ [] }
        requires space { length self.old.pooled.idle ≤ self.old.capacity }
        ensures moves { self.new.moves ≡ closings_of_tick self.old.pooled }
        ensures pooled { self.new.pooled ≡ self.old.pooled }
        ensures spare { self.old.spare ≤ self.new.spare }
    {
        note_outdated(
            &self.conns,
            &self.idle,
            self.limits,
            self.moment,
            &mut self.moves,
        );
    }

    // Closes the idle connections that are past their time.
    fn close_outdated(&mut self)
        requires empty { self.old.moves ≡ [] }
        requires space { length self.old.pooled.idle ≤ self.old.capacity }
        ensures pooled { self.new.pooled ≡ made (closings_of_tick self.old.pooled) self.old.pooled }
        ensures moves { self.new.moves ≡ closings_of_tick self.old.pooled }
        ensures spare { self.old.spare ≤ self.new.spare }
    {
        self.note_outdated();
        self.close_noted();
    }

    // Returns the limits with this lifetime.
    fn life_limits(&self, d: i64) -> Limits
        ensures { result ≡ changes.with_lifetime d self.now.pooled.limits }
    {
        with_lifetime(self.limits, d)
    }

    // Returns the limits with this idle time.
    fn idle_time_limits(&self, d: i64) -> Limits
        ensures { result ≡ changes.with_idle_time d self.now.pooled.limits }
    {
        with_idle_time(self.limits, d)
    }

    // Advances the present moment to `now`, if `now` is later.
    fn pass(&mut self, now: u64)
        ensures pooled { self.new.pooled ≡ ticked now self.old.pooled }
        ensures moves { self.new.moves ≡ self.old.moves }
        ensures spare { self.old.spare ≤ self.new.spare }
        ensures capacity { self.new.capacity ≡ self.old.capacity }
    {
        self.moment = self.moment.max(now);
    }

    /// Sets how long a connection may live, as Go's `DB.SetConnMaxLifetime` does. The idle connections that are
    /// past their time close, the longest idle first.
    pub fn set_lifetime(&mut self, d: i64) -> Result<(), Memory>
        ensures moves { OnOk result (self.new.moves ≡ moves_lifetime_set d self.old.pooled) }
        ensures ok { OnOk result (self.new.pooled
            ≡ made (moves_lifetime_set d self.old.pooled) (lifetime_set d self.old.pooled)) }
        ensures full { OnErr result (self.old.spare ≡ 0) }
        ensures err { OnErr result (self.new.pooled ≡ self.old.pooled) }
        ensures spare { self.old.spare ≤ self.new.spare }
    {
        self.make_ready()?;
        let limits = self.life_limits(d);
        self.limit(limits);
        self.close_outdated();
        Ok(())
    }

    /// Sets how long a connection may stay idle, as Go's `DB.SetConnMaxIdleTime` does. The idle connections
    /// that are past their time close, the longest idle first.
    pub fn set_idle_time(&mut self, d: i64) -> Result<(), Memory>
        ensures moves { OnOk result (self.new.moves ≡ moves_idle_time_set d self.old.pooled) }
        ensures ok { OnOk result (self.new.pooled
            ≡ made (moves_idle_time_set d self.old.pooled) (idle_time_set d self.old.pooled)) }
        ensures full { OnErr result (self.old.spare ≡ 0) }
        ensures err { OnErr result (self.new.pooled ≡ self.old.pooled) }
        ensures spare { self.old.spare ≤ self.new.spare }
    {
        self.make_ready()?;
        let limits = self.idle_time_limits(d);
        self.limit(limits);
        self.close_outdated();
        Ok(())
    }

    /// Advances the present moment to `now`, in nanoseconds, if `now` is later.
    ///
    /// The idle connections that are past their time close, the longest idle first. This follows the connection
    /// cleaner of Go's package.
    pub fn tick(&mut self, now: u64) -> Result<(), Memory>
        ensures moves { OnOk result (self.new.moves ≡ moves_ticked now self.old.pooled) }
        ensures ok { OnOk result (self.new.pooled
            ≡ made (moves_ticked now self.old.pooled) (ticked now self.old.pooled)) }
        ensures full { OnErr result (self.old.spare ≡ 0) }
        ensures err { OnErr result (self.new.pooled ≡ self.old.pooled) }
        ensures spare { self.old.spare ≤ self.new.spare }
    {
        self.make_ready()?;
        self.pass(now);
        self.close_outdated();
        Ok(())
    }
}

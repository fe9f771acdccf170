//! Requests that leave, and the closing of the pool.
ghost use Rattle.std.specs.Prelude.{◌≡◌, ◌≤◌, [], length, map, fold, OnOk, OnErr};
ghost use Rattle.dsql_pool.specs.Changes.{unwanted_by};
ghost use Rattle.dsql_pool.specs.Counted.{with_wait};

use crate::lists::note_closings;
use crate::moves::CloseCause;
use crate::pool::Pool;
use crate::stats::with_wait;
use dsql_value::Memory;
use dsql_wait::Waiting;

impl Pool {
    ghost use Rattle.dsql_pool.specs.Moved.{made, withdrawn, shut};
    ghost use Rattle.dsql_pool.specs.Decisions.{closings_of_close};
    ghost use Rattle.dsql_pool.specs.Calls.{wants, moves_closed};

    /// Returns whether a call waits, or a connection is being opened for it.
    pub fn wants(&self, call: u32) -> bool
        ensures { result ≡ wants call self.now.pooled }
    {
        self.waiting.waits(call) || self.conns.opens_for(call)
    }

    // Turns each opening for this call into one for no request.
    fn disown(&mut self, call: u32)
        ensures pooled { self.new.pooled
            ≡ record self.old.pooled { conns = map (unwanted_by call) self.old.pooled.conns } }
        ensures moves { self.new.moves ≡ self.old.moves }
        ensures spare { self.old.spare ≤ self.new.spare }
    {
        self.conns.withdraw(call);
    }

    /// Ends a call's wish for a connection.
    ///
    /// Returns whether the call waited or a connection was being opened for it. Takes no memory.
    pub fn withdraw(&mut self, call: u32) -> bool
        ensures wanted { result ≡ wants call self.old.pooled }
        ensures pooled { self.new.pooled ≡ withdrawn call self.old.pooled }
        ensures moves { self.new.moves ≡ self.old.moves }
        ensures spare { self.old.spare ≤ self.new.spare }
    {
        let wanted = self.wants(call);
        self.disown(call);
        self.leave(call);
        wanted
    }

    // Marks the pool as closed: no request waits, and no opening is for a request.
    fn shut(&mut self)
        ensures pooled { self.new.pooled ≡ shut self.old.pooled }
        ensures moves { self.new.moves ≡ self.old.moves }
        ensures spare { self.old.spare ≤ self.new.spare }
        ensures capacity { self.new.capacity ≡ self.old.capacity }
    {
        self.conns.withdraw_all();
        self.counts.waited = end_waits(&mut self.waiting, self.moment, self.counts.waited);
        self.closed = true;
    }

    // Notes the closings of all idle connections, the longest idle first.
    fn note_idle(&mut self)
        requires empty { self.old.moves ≡ [] }
        requires space { length self.old.pooled.idle ≤ self.old.capacity }
        ensures moves { self.new.moves ≡ closings_of_close self.old.pooled }
        ensures pooled { self.new.pooled ≡ self.old.pooled }
        ensures spare { self.old.spare ≤ self.new.spare }
    {
        note_closings(&self.idle, CloseCause::DbClosed, &mut self.moves);
    }

    /// Closes the pool, as Go's `DB.Close` does. The idle connections close, the longest idle first, and no
    /// request remains.
    pub fn close(&mut self) -> Result<(), Memory>
        ensures moves { OnOk result (self.new.moves ≡ moves_closed self.old.pooled) }
        ensures ok { OnOk result (self.new.pooled ≡ made (moves_closed self.old.pooled) (shut self.old.pooled)) }
        ensures full { OnErr result (self.old.spare ≡ 0) }
        ensures err { OnErr result (self.new.pooled ≡ self.old.pooled) }
        ensures spare { self.old.spare ≤ self.new.spare }
    {
        self.make_ready()?;
        self.shut();
        self.note_idle();
        self.close_noted();
        Ok(())
    }
}

// Removes all requests. Returns the time waited, their waits included.
fn end_waits(waiting: &mut Waiting, moment: u64, waited: u64) -> u64
    ensures waited { result ≡ fold (with_wait moment) waited waiting.old.requests }
    ensures none { waiting.new.requests ≡ [] }
    ensures spare { waiting.old.spare ≤ waiting.new.spare }
{
    let mut total = waited;
    while let Some(request) = waiting.serve_oldest() {
        total = with_wait(moment, total, &request);
    }
    total
}

//! The layer's own driver calls.
ghost use Rattle.std.specs.Prelude.{◌≡◌, ◌<◌, length, None, IsOkAnd};
ghost use Rattle.dsql_engine.specs.Chores.{IsChore};
ghost use Rattle.dsql_engine_hearing.specs.laws_steps.Groups.{most_events};

use crate::engine::Engine;
use crate::permits::chore_leave;
use dsql_engine_hearing::{Next, NoRoom};

#[tactic(auto, using(crate::proofs::Chores::chore_sent, crate::proofs::Chores::chore_quiet))]
impl Engine {
    /// Returns the layer's own driver call that comes first, if there is one, and records it as under way. Takes no
    /// memory, so it doesn't fail.
    pub fn chore(&mut self) -> Result<Next, NoRoom>
        requires free { self.old.chore ≡ None }
        requires room { length self.old.past < most_events }
        ensures next { IsOkAnd result (λ next. IsChore self.old.past next self.new) }
        ensures past { self.new.past ≡ self.old.past }
        ensures flights { self.new.flights ≡ self.old.flights }
        ensures trimmed { self.new.trimmed ≡ self.old.trimmed }
    {
        let Some(conn) = self.desk.chore_due() else {
            return Ok(Next::Quiet);
        };
        let leave = chore_leave(&self.desk, conn);
        self.chore = Some(conn);
        Ok(Next::Send(leave))
    }

    /// Puts off the layer's own driver call: it is no longer recorded as under way. It stays due until its answer is
    /// heard, and `take_up_chore` records it again before that.
    pub fn put_off_chore(&mut self)
        ensures chore { self.new.chore ≡ None }
        ensures past { self.new.past ≡ self.old.past }
        ensures flights { self.new.flights ≡ self.old.flights }
        ensures trimmed { self.new.trimmed ≡ self.old.trimmed }
    {
        self.chore = None;
    }

    /// Records the layer's own driver call on this connection as under way.
    pub fn take_up_chore(&mut self, conn: u32)
        requires free { self.old.chore ≡ None }
        ensures chore { self.new.chore ≡ Some conn }
        ensures past { self.new.past ≡ self.old.past }
        ensures flights { self.new.flights ≡ self.old.flights }
        ensures trimmed { self.new.trimmed ≡ self.old.trimmed }
    {
        self.chore = Some(conn);
    }
}

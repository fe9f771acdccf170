//! Keeps lines, enters calls, sets a limit or the moment, and ends the run.
ghost use Rattle.std.specs.Prelude.{◌≡◌, ◌<◌, true, false, length, OnOk};
ghost use Rattle.dsql_engine_laws.specs.journal.Readers.{is_empty};
ghost use Rattle.dsql_engine_laws.specs.history.Readers.Calls.{is_busy};
ghost use Rattle.dsql_engine_laws.specs.history.Readers.Course.{has_ended};
ghost use Rattle.dsql_engine_laws.specs.history.Rules.House.{is_quiet};
ghost use Rattle.dsql_player.specs.Acts.{SamePermits, SamePermitsBut};
ghost use Rattle.dsql_player.specs.Keeping.{ActsUnheard, SameCourse, TakesUp};
ghost use Rattle.dsql_player.specs.Naming.{MakeOnce};
ghost use Rattle.dsql_engine_laws.specs.follows.Labels.{times_by};
ghost use Rattle.dsql_engine_laws.specs.follows.Moments.{Moment, met};
ghost use Rattle.dsql_player.specs.Playing.{IsAt, IsAtBut, IsReady, line_kept};
ghost use Rattle.dsql_player.specs.Stepping.{IsEnd, IsEntryOf, IsTold, TakesStep};
ghost use Rattle.dsql_player_wires.specs.Seats.{seat};
ghost use Rattle.dsql_engine_laws.specs.laws_steps.Groups.{most_events};

use crate::asking::leave_of;
use crate::halt::Halt;
use crate::player::Player;
use dsql_engine_laws::Control;
use dsql_player_wires::KeptLine;

impl Player {
    /// Appends a line to the kept lines of the client.
    pub fn keep(&mut self, client: u8, line: KeptLine) -> Result<(), Halt>
        requires ready { IsReady self.old }
        requires names { MakeOnce (λ label. times_by label line.op) self.old.past self.old.seats }
        ensures keeps { OnOk result ((m : Moment) → IsAt m self.old → IsAt (met (line_kept client line) m) self.new) }
        ensures past { self.new.past ≡ self.old.past }
        ensures course { OnOk result (TakesUp (λ label. times_by label line.op) self.old self.new) }
        ensures act { ActsUnheard result self.old self.new }
        ensures trimmed { self.new.trimmed ≡ self.old.trimmed }
    {
        self.seats.keep(client, line)?;
        Ok(())
    }

    /// Enters the first kept line of a free client.
    pub fn enter_kept(&mut self, client: u8) -> Result<(), Halt>
        requires ready { IsReady self.old }
        requires room { length self.old.past < most_events }
        requires free { is_busy client self.old.past ≡ false }
        requires kept { is_empty (seat self.old.seats client).kept ≡ false }
        ensures enters { OnOk result ((m : Moment) → IsAt m self.old
            → TakesStep m self.old self.new (IsEntryOf client)) }
        ensures grows { OnOk result (length self.old.past < length self.new.past) }
        ensures handed { OnOk result (SamePermitsBut client self.old.seats self.new.seats) }
        ensures course { OnOk result (SameCourse self.old self.new) }
        ensures act { ActsUnheard result self.old self.new }
        ensures trimmed { self.new.trimmed ≡ self.old.trimmed }
    {
        match self.seats.take_first(client) {
            Some(line) => self.enter(client, line),
            None => unreachable!(),
        }
    }

    /// Enters a line of a free client that isn't among its kept lines.
    pub fn enter(&mut self, client: u8, line: KeptLine) -> Result<(), Halt>
        requires ready { IsReady self.old }
        requires names { MakeOnce (λ label. times_by label line.op) self.old.past self.old.seats }
        requires room { length self.old.past < most_events }
        requires free { is_busy client self.old.past ≡ false }
        ensures enters { OnOk result ((m : Moment) → IsAtBut m client line self.old
            → TakesStep m self.old self.new (IsEntryOf client)) }
        ensures grows { OnOk result (length self.old.past < length self.new.past) }
        ensures handed { OnOk result (SamePermitsBut client self.old.seats self.new.seats) }
        ensures course { OnOk result (TakesUp (λ label. times_by label line.op) self.old self.new) }
        ensures act { ActsUnheard result self.old self.new }
        ensures trimmed { self.new.trimmed ≡ self.old.trimmed }
    {
        self.seats.seat_client(client)?;
        let KeptLine { op, held } = line;
        let next = self.engine.enter(client, op)?;
        self.seats.hand(client, leave_of(next));
        self.seats.hold(client, !self.released && held);
        Ok(())
    }

    /// Sets a limit or the present moment.
    pub fn control(&mut self, control: Control) -> Result<(), Halt>
        requires ready { IsReady self.old }
        requires room { length self.old.past < most_events }
        ensures tells { OnOk result ((m : Moment) → IsAt m self.old
            → TakesStep m self.old self.new (IsTold self.old.past control)) }
        ensures handed { OnOk result (SamePermits self.old.seats self.new.seats) }
        ensures course { OnOk result (SameCourse self.old self.new) }
        ensures act { ActsUnheard result self.old self.new }
        ensures trimmed { self.new.trimmed ≡ self.old.trimmed }
    {
        Ok(self.engine.control(control)?)
    }

    /// Ends the run, which closes the database.
    pub fn end_run(&mut self) -> Result<(), Halt>
        requires ready { IsReady self.old }
        requires quiet { is_quiet self.old.past ≡ true }
        requires running { has_ended self.old.past ≡ false }
        ensures ends { OnOk result ((m : Moment) → IsAt m self.old → TakesStep m self.old self.new IsEnd) }
        ensures ended { OnOk result (has_ended self.new.past ≡ true) }
        ensures released { self.new.released ≡ self.old.released }
        ensures act { ActsUnheard result self.old self.new }
        ensures trimmed { self.new.trimmed ≡ self.old.trimmed }
    {
        Ok(self.engine.end()?)
    }
}

//! Driver calls that are made apart from the player, while others take their steps: hands out their permits and takes
//! in their answers.
ghost use Rattle.std.specs.Prelude.{◌≡◌, ◌<◌, true, is_some, length, None, Some, IfErr, IfOk, IfSome, OnErr, OnOk};
ghost use Rattle.dsql_engine_laws.specs.exchanged.Filled.{carries_statement};
ghost use Rattle.dsql_engine_laws.specs.follows.Moments.{Moment};
ghost use Rattle.dsql_engine_laws.specs.going.Permits.{chore_permit};
ghost use Rattle.dsql_engine_laws.specs.history.Legal.{Legal};
ghost use Rattle.dsql_engine_laws.specs.history.Readers.Clients.{call_of};
ghost use Rattle.dsql_engine_laws.specs.history.Rules.House.{chore_due};
ghost use Rattle.dsql_engine_laws.specs.laws_steps.Groups.{after_heard, most_events};
ghost use Rattle.dsql_player.specs.Acts.{SamePermitsBut};
ghost use Rattle.dsql_player.specs.Apart.{AnswersChore, AnswersLeave};
ghost use Rattle.dsql_player.specs.Keeping.{FailsForMemory, SameCourse};
ghost use Rattle.dsql_player.specs.Playing.{IsAt, IsReady};
ghost use Rattle.dsql_player.specs.Stepping.{HearsAnswer, IsChoreOn, TakesStep};
ghost use Rattle.dsql_player_wires.specs.Seats.{seat};

use crate::asking::leave_of;
use crate::halt::Halt;
use crate::player::Player;
use dsql_engine_laws::{Heard, Permit};

impl Player {
    /// Returns the permit for the driver call for which the client's call has leave. The client keeps its leave, which
    /// stays good while others take their steps. Fails with `Memory` if there is no memory for the parts of a
    /// statement.
    pub fn permit(&self, client: u8) -> Result<Permit, Halt>
        requires ready { IsReady self.now }
        requires leave { is_some (seat self.now.seats client).permit ≡ true }
        ensures permit { IfOk result (λ permit. (seat self.now.seats client).permit ≡ Some permit) }
        ensures memory { IfErr result (λ halt. halt ≡ Halt.Memory) }
        ensures err { OnErr result (IfSome (seat self.now.seats client).permit
            (λ permit. carries_statement permit.call ≡ true)) }
    {
        let Some(leave) = self.seats.leave(client) else {
            unreachable!();
        };
        Ok(self.engine.permit(leave)?)
    }

    /// Takes in the answer to the driver call for which the client's call has leave, and lets the call go on with it.
    /// The client then has leave for the driver call that comes next, if one does. If there is no memory, nothing
    /// changes.
    pub fn hear(&mut self, client: u8, heard: Heard) -> Result<(), Halt>
        requires ready { IsReady self.old }
        requires room { length self.old.past < most_events }
        requires answers { AnswersLeave self.old client heard }
        ensures past { OnOk result (self.new.past ≡ after_heard self.old.past heard) }
        ensures hears { OnOk result (HearsAnswer (call_of self.old.past client) self.old self.new) }
        ensures handed { OnOk result (SamePermitsBut client self.old.seats self.new.seats) }
        ensures ready { OnOk result (IsReady self.new) }
        ensures grows { OnOk result (length self.old.past < length self.new.past) }
        ensures course { OnOk result (SameCourse self.old self.new) }
        ensures kept { OnErr result (self.new ≡ self.old) }
        ensures fails { FailsForMemory result self.old.past self.new.past }
        ensures legal { Legal self.new.past }
        ensures trimmed { self.new.trimmed ≡ self.old.trimmed }
    {
        let next = self.engine.heard(heard)?;
        self.seats.hand(client, leave_of(next));
        Ok(())
    }

    /// Returns the permit for the first of the layer's own driver calls, if there is one. Nothing changes: the driver
    /// call stays due until its answer is heard.
    pub fn chore(&mut self) -> Option<Permit>
        requires ready { IsReady self.old }
        requires room { length self.old.past < most_events }
        ensures some { IfSome result (λ permit. (chore_due self.old.past ≡ Some permit.conn)
            × (chore_permit self.old.past permit.conn ≡ Some permit)) }
        ensures none { result ≡ None → chore_due self.old.past ≡ None }
        ensures same { self.new ≡ self.old }
    {
        let permit = self.first_chore();
        self.engine.put_off_chore();
        permit
    }

    /// Takes in the answer to one of the layer's own driver calls, while clients may have driver calls under way. If
    /// there is no memory, nothing changes.
    pub fn hear_chore(&mut self, heard: Heard) -> Result<(), Halt>
        requires ready { IsReady self.old }
        requires room { length self.old.past < most_events }
        requires answers { AnswersChore self.old heard }
        ensures past { OnOk result (self.new.past ≡ after_heard self.old.past heard) }
        ensures step { OnOk result ((m : Moment) → IsAt m self.old
            → TakesStep m self.old self.new (IsChoreOn (Some heard.conn))) }
        ensures flights { OnOk result (self.new.flights ≡ self.old.flights) }
        ensures seats { OnOk result (self.new.seats ≡ self.old.seats) }
        ensures released { OnOk result (self.new.released ≡ self.old.released) }
        ensures ready { OnOk result (IsReady self.new) }
        ensures grows { OnOk result (length self.old.past < length self.new.past) }
        ensures course { OnOk result (SameCourse self.old self.new) }
        ensures kept { OnErr result (self.new ≡ self.old) }
        ensures fails { FailsForMemory result self.old.past self.new.past }
        ensures legal { Legal self.new.past }
        ensures trimmed { self.new.trimmed ≡ self.old.trimmed }
    {
        self.engine.take_up_chore(heard.entry().conn);
        match self.engine.heard(heard) {
            Ok(_) => Ok(()),
            Err(back) => {
                self.engine.put_off_chore();
                Err(Halt::from(back))
            }
        }
    }
}

//! Takes the step of the client whose turn it is.
ghost use Rattle.std.specs.Prelude.{◌≡◌, ◌<◌, None, true, false, length, OnOk};
ghost use Rattle.dsql_engine_laws.specs.history.Readers.Calls.{is_busy};
ghost use Rattle.dsql_engine_laws.specs.history.Readers.Clients.{call_of};
ghost use Rattle.dsql_engine_laws.specs.history.Rules.Flights.{is_in_flight};
ghost use Rattle.dsql_engine_laws.specs.history.Rules.House.{chore_due};
ghost use Rattle.dsql_engine_laws.specs.follows.Moments.{Moment};
ghost use Rattle.dsql_player.specs.Carried.{KeepsWires};
ghost use Rattle.dsql_player.specs.Keeping.{FailsForMemory, SameCourse};
ghost use Rattle.dsql_player.specs.Playing.{IsAt, IsReady};
ghost use Rattle.dsql_player.specs.Stepping.{InTurn, IsFirstToGo, TakesStep};
ghost use Rattle.dsql_engine_laws.specs.laws_steps.Groups.{most_events};
ghost use Rattle.dsql_player_wires.specs.WiresFit.{WiresFit};

use crate::halt::Halt;
use crate::player::Player;
use dsql_engine_laws::Wire;
use dsql_player_wires::Wires;

impl Player {
    /// Takes a step of the first client that may go on.
    pub fn go_on_with<W: Wire>(&mut self, wires: &mut Wires<W>, client: u8) -> Result<(), Halt>
        requires ready { IsReady self.old }
        requires room { length self.old.past < most_events }
        requires no_chore { chore_due self.old.past ≡ None }
        requires first { IsFirstToGo self.old client }
        requires wires { WiresFit W.told false self.old.past wires.old }
        ensures steps { OnOk result ((m : Moment) → IsAt m self.old → TakesStep m self.old self.new (InTurn m)) }
        ensures grows { OnOk result (length self.old.past < length self.new.past) }
        ensures course { OnOk result (SameCourse self.old self.new) }
        ensures run { KeepsWires W.told result self.old self.new wires.old wires.new }
        ensures fails { FailsForMemory result self.old.past self.new.past }
        ensures trimmed { self.new.trimmed ≡ self.old.trimmed }
    {
        if !self.has_call(client) {
            self.enter_kept(client)
        } else if self.has_leave(client) {
            self.make_call(wires, client)
        } else {
            self.go_on_parked(wires, client)
        }
    }

    /// Lets the client's call, which has no permit yet, go on by itself. If the call only gets a permit by
    /// that, it makes its driver call in the same step.
    fn go_on_parked<W: Wire>(&mut self, wires: &mut Wires<W>, client: u8) -> Result<(), Halt>
        requires ready { IsReady self.old }
        requires room { length self.old.past < most_events }
        requires no_chore { chore_due self.old.past ≡ None }
        requires first { IsFirstToGo self.old client }
        requires busy { is_busy client self.old.past ≡ true }
        requires parked { is_in_flight (call_of self.old.past client) self.old.flights ≡ false }
        requires wires { WiresFit W.told false self.old.past wires.old }
        ensures steps { OnOk result ((m : Moment) → IsAt m self.old → TakesStep m self.old self.new (InTurn m)) }
        ensures grows { OnOk result (length self.old.past < length self.new.past) }
        ensures course { OnOk result (SameCourse self.old self.new) }
        ensures run { KeepsWires W.told result self.old self.new wires.old wires.new }
        ensures fails { FailsForMemory result self.old.past self.new.past }
        ensures trimmed { self.new.trimmed ≡ self.old.trimmed }
    {
        if self.wake(client)? {
            return Ok(());
        }
        self.make_call(wires, client)
    }
}

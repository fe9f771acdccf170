//! Makes the driver call for which a client's call has a permit.
ghost use Rattle.std.specs.Prelude.{◌≡◌, ◌<◌, true, false, is_some, length, OnOk};
ghost use Rattle.dsql_engine_laws.specs.history.Readers.Clients.{call_of};
ghost use Rattle.dsql_player.specs.Keeping.{FailsForMemory, SameCourse};
ghost use Rattle.dsql_player.specs.Carried.{KeepsWires};
ghost use Rattle.dsql_player.specs.Playing.{IsReady};
ghost use Rattle.dsql_player.specs.Stepping.{HearsAnswer, leave_of};
ghost use Rattle.dsql_player_wires.specs.Seats.{seat};
ghost use Rattle.dsql_engine_laws.specs.laws_steps.Groups.{most_events};
ghost use Rattle.dsql_player_wires.specs.WiresFit.{WiresFit};

use crate::halt::Halt;
use crate::player::Player;
use dsql_engine::{Leave, Next};
use dsql_engine_laws::Wire;
use dsql_player_wires::Wires;

/// Returns the permit for the driver call that comes next, if one does.
pub(crate) fn leave_of(next: Next) -> Option<Leave>
    ensures { result ≡ leave_of next }
{
    match next {
        Next::Send(leave) => Some(leave),
        _ => None,
    }
}

impl Player {
    /// Makes the driver call for which the client's call has a permit, and lets the call go on with the answer.
    pub fn make_call<W: Wire>(&mut self, wires: &mut Wires<W>, client: u8) -> Result<(), Halt>
        requires ready { IsReady self.old }
        requires room { length self.old.past < most_events }
        requires leave { is_some (seat self.old.seats client).permit ≡ true }
        requires wires { WiresFit W.told false self.old.past wires.old }
        ensures hears { OnOk result (HearsAnswer (call_of self.old.past client) self.old self.new) }
        ensures grows { OnOk result (length self.old.past < length self.new.past) }
        ensures course { OnOk result (SameCourse self.old self.new) }
        ensures run { KeepsWires W.told result self.old self.new wires.old wires.new }
        ensures fails { FailsForMemory result self.old.past self.new.past }
        ensures trimmed { self.new.trimmed ≡ self.old.trimmed }
    {
        let permit = self.permit(client)?;
        let heard = wires.perform(permit)?;
        self.hear(client, heard)
    }
}

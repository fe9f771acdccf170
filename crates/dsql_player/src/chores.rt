//! Makes the layer's own driver calls: opens and shuts connections, and tidies up rows that nobody ended.
ghost use Rattle.std.specs.Prelude.{◌≡◌, ◌<◌, true, false, is_some, length, IfOk, OnOk};
ghost use Rattle.dsql_engine_laws.specs.driver.Kinds.{is_connect, is_shut};
ghost use Rattle.dsql_engine_laws.specs.journal.declared.entry.Permit.{Permit as Permitted};
ghost use Rattle.dsql_engine_laws.specs.history.Legal.{Legal};
ghost use Rattle.dsql_player.specs.Acts.{TakesAnswer};
ghost use Rattle.dsql_player.specs.Carried.{KeepsRun};
ghost use Rattle.dsql_player.specs.Chores.{FindsChore, IsAnswered, IsToMake, SameButChore};
ghost use Rattle.dsql_player.specs.Keeping.{FailsForMemory, IsTaken, SameCourse};
ghost use Rattle.dsql_player.specs.Playing.{IsReady};
ghost use Rattle.dsql_engine_laws.specs.laws_steps.Groups.{most_events};
ghost use Rattle.dsql_engine_laws.specs.tenure.Judged.{answered};
ghost use Rattle.dsql_player_wires.specs.WiresFit.{WiresFit};
ghost use Rattle.dsql_player.specs.Stepping.{MakesChore};

use crate::asking::leave_of;
use crate::halt::Halt;
use crate::player::Player;
use dsql_engine::Leave;
use dsql_engine_laws::{DriverCall, Fleet, Heard, Permit};
use dsql_player_wires::{Wires, connect_wire, retire};

impl Player {
    /// Returns the permit for the first of the layer's own calls, if there is one. That call is under way from
    /// then on. It takes no memory, because such a call has no statement.
    pub fn first_chore(&mut self) -> Option<Permit>
        requires ready { IsReady self.old }
        requires room { length self.old.past < most_events }
        ensures finds { FindsChore result self.old self.new }
        ensures same { SameButChore self.old self.new }
    {
        let Some(leave) = self.first_leave() else {
            return None;
        };
        match self.engine.permit(&leave) {
            Ok(permit) => Some(permit),
            Err(_) => unreachable!(),
        }
    }

    /// Returns leave for the first of the layer's own calls, if there is one. That call is under way from then on.
    fn first_leave(&mut self) -> Option<Leave>
        requires ready { IsReady self.old }
        requires room { length self.old.past < most_events }
        ensures finds { FindsChore result self.old self.new }
        ensures same { SameButChore self.old self.new }
    {
        let Ok(next) = self.engine.chore() else {
            unreachable!();
        };
        leave_of(next)
    }

    /// Opens a connection.
    pub fn open<F: Fleet>(
        &mut self,
        wires: &mut Wires<F::Wire>,
        fleet: &mut F,
        permit: Permit,
    ) -> Result<(), Halt>
        requires to_make { IsToMake self.old permit }
        requires opens { is_connect permit.call ≡ true }
        requires wires { WiresFit F.Wire.told (is_some (F.told fleet.old)) self.old.past wires.old }
        ensures taken { OnOk result (IsTaken permit self.old self.new) }
        ensures run { KeepsRun F.Fleet F.Wire.told result fleet.old fleet.new self.old self.new wires.old wires.new }
        ensures fails { FailsForMemory result self.old.past self.new.past }
        ensures trimmed { self.new.trimmed ≡ self.old.trimmed }
    {
        let heard = connect_wire(wires, fleet, permit)?;
        self.take_in(heard)
    }

    /// Makes a call on a connection that rows or a transaction still have, although the run has ended.
    pub fn tidy<F: Fleet>(
        &mut self,
        wires: &mut Wires<F::Wire>,
        fleet: &mut F,
        permit: Permit,
    ) -> Result<(), Halt>
        requires to_make { IsToMake self.old permit }
        requires opens { is_connect permit.call ≡ false }
        requires shuts { is_shut permit.call ≡ false }
        requires wires { WiresFit F.Wire.told (is_some (F.told fleet.old)) self.old.past wires.old }
        ensures taken { OnOk result (IsTaken permit self.old self.new) }
        ensures run { KeepsRun F.Fleet F.Wire.told result fleet.old fleet.new self.old self.new wires.old wires.new }
        ensures fails { FailsForMemory result self.old.past self.new.past }
        ensures trimmed { self.new.trimmed ≡ self.old.trimmed }
    {
        let heard = wires.perform(permit)?;
        self.take_in(heard)
    }

    /// Takes in the answer to the layer's own call that is under way.
    fn take_in(&mut self, heard: Heard) -> Result<(), Halt>
        requires answered { IsAnswered self.old heard }
        ensures takes { OnOk result ((permit : Permitted) → heard ≡ answered permit heard.answer
            → TakesAnswer permit heard self.old self.new) }
        ensures fails { FailsForMemory result self.old.past self.new.past }
        ensures legal { Legal self.new.past }
        ensures trimmed { self.new.trimmed ≡ self.old.trimmed }
    {
        self.engine.heard(heard)?;
        Ok(())
    }
}

/// Makes the first of the layer's own calls, if there is one. Returns `true` if there was one.
pub(crate) fn make_first_chore<F: Fleet>(
    player: &mut Player,
    wires: &mut Wires<F::Wire>,
    fleet: &mut F,
) -> Result<bool, Halt>
    requires ready { IsReady player.old }
    requires room { length player.old.past < most_events }
    requires wires { WiresFit F.Wire.told (is_some (F.told fleet.old)) player.old.past wires.old }
    ensures makes { IfOk result (λ made. MakesChore made player.old player.new) }
    ensures course { OnOk result (SameCourse player.old player.new) }
    ensures run { KeepsRun F.Fleet F.Wire.told result fleet.old fleet.new player.old player.new wires.old wires.new }
    ensures fails { FailsForMemory result player.old.past player.new.past }
    ensures trimmed { player.new.trimmed ≡ player.old.trimmed }
{
    match player.first_chore() {
        Some(permit) => {
            make_chore(player, wires, fleet, permit)?;
            Ok(true)
        }
        None => Ok(false),
    }
}

/// Makes one of the layer's own calls: opens a connection, shuts it, or tidies it up.
fn make_chore<F: Fleet>(
    player: &mut Player,
    wires: &mut Wires<F::Wire>,
    fleet: &mut F,
    permit: Permit,
) -> Result<(), Halt>
    requires to_make { IsToMake player.old permit }
    requires wires { WiresFit F.Wire.told (is_some (F.told fleet.old)) player.old.past wires.old }
    ensures taken { OnOk result (IsTaken permit player.old player.new) }
    ensures run { KeepsRun F.Fleet F.Wire.told result fleet.old fleet.new player.old player.new wires.old wires.new }
    ensures fails { FailsForMemory result player.old.past player.new.past }
    ensures trimmed { player.new.trimmed ≡ player.old.trimmed }
{
    match permit.call {
        DriverCall::Connect => player.open(wires, fleet, permit),
        DriverCall::Shut => shut(player, wires, fleet, permit),
        _ => player.tidy(wires, fleet, permit),
    }
}

/// Shuts a connection and gives its wire back to the fleet. The wire is given back before the answer is taken in, which
/// may fail for want of memory.
fn shut<F: Fleet>(
    player: &mut Player,
    wires: &mut Wires<F::Wire>,
    fleet: &mut F,
    permit: Permit,
) -> Result<(), Halt>
    requires to_make { IsToMake player.old permit }
    requires shuts { is_shut permit.call ≡ true }
    requires wires { WiresFit F.Wire.told (is_some (F.told fleet.old)) player.old.past wires.old }
    ensures taken { OnOk result (IsTaken permit player.old player.new) }
    ensures run { KeepsRun F.Fleet F.Wire.told result fleet.old fleet.new player.old player.new wires.old wires.new }
    ensures fails { FailsForMemory result player.old.past player.new.past }
    ensures trimmed { player.new.trimmed ≡ player.old.trimmed }
{
    let conn = permit.conn;
    let heard = wires.perform(permit)?;
    retire(wires, fleet, conn);
    player.take_in(heard)
}

//! Makes single steps.
ghost use Rattle.std.specs.Prelude.{◌≡◌, ◌<◌, true, false, is_some, length, OnOk};
ghost use Rattle.dsql_engine_laws.specs.history.Readers.Calls.{is_busy};
ghost use Rattle.dsql_engine_laws.specs.follows.Moments.{Moment};
ghost use Rattle.dsql_engine_laws.specs.follows.declared.line.Line.TheVariants.{Step, StepHouse};
ghost use Rattle.dsql_player.specs.Carried.{Carries, KeepsRun, KeepsWires};
ghost use Rattle.dsql_player.specs.Keeping.{FailsForMemory, SameCourse};
ghost use Rattle.dsql_player.specs.Playing.{IsAt, IsReady};
ghost use Rattle.dsql_engine_laws.specs.laws_steps.Groups.{most_events};
ghost use Rattle.dsql_player_wires.specs.WiresFit.{WiresFit};

use crate::chores::make_first_chore;
use crate::halt::Halt;
use crate::player::Player;
use dsql_engine_laws::{Fleet, Wire};
use dsql_player_wires::Wires;

/// Makes one step of the client, if it can make one. It enters its first kept line, makes its driver call and brings
/// back the answer, or lets its call go on.
pub(crate) fn step_client<W: Wire>(
    player: &mut Player,
    wires: &mut Wires<W>,
    client: u8,
) -> Result<(), Halt>
    requires ready { IsReady player.old }
    requires room { length player.old.past < most_events }
    requires wires { WiresFit W.told false player.old.past wires.old }
    ensures carries { OnOk result ((m : Moment) → IsAt m player.old → Carries m (Step client) player.old player.new) }
    ensures course { OnOk result (SameCourse player.old player.new) }
    ensures run { KeepsWires W.told result player.old player.new wires.old wires.new }
    ensures fails { FailsForMemory result player.old.past player.new.past }
    ensures trimmed { player.new.trimmed ≡ player.old.trimmed }
{
    if player.has_call(client) {
        step_call(player, wires, client)
    } else if player.has_kept(client) {
        player.enter_kept(client)
    } else {
        Ok(())
    }
}

/// Makes one step of the client's call, if it can make one.
fn step_call<W: Wire>(player: &mut Player, wires: &mut Wires<W>, client: u8) -> Result<(), Halt>
    requires ready { IsReady player.old }
    requires room { length player.old.past < most_events }
    requires busy { is_busy client player.old.past ≡ true }
    requires wires { WiresFit W.told false player.old.past wires.old }
    ensures carries { OnOk result ((m : Moment) → IsAt m player.old → Carries m (Step client) player.old player.new) }
    ensures course { OnOk result (SameCourse player.old player.new) }
    ensures run { KeepsWires W.told result player.old player.new wires.old wires.new }
    ensures fails { FailsForMemory result player.old.past player.new.past }
    ensures trimmed { player.new.trimmed ≡ player.old.trimmed }
{
    if player.has_leave(client) {
        return player.make_call(wires, client);
    }
    if !player.may_move(client) {
        return Ok(());
    }
    player.wake(client)?;
    Ok(())
}

/// Makes the first of the layer's own calls, if there is one.
pub(crate) fn step_house<F: Fleet>(
    player: &mut Player,
    wires: &mut Wires<F::Wire>,
    fleet: &mut F,
) -> Result<(), Halt>
    requires ready { IsReady player.old }
    requires room { length player.old.past < most_events }
    requires wires { WiresFit F.Wire.told (is_some (F.told fleet.old)) player.old.past wires.old }
    ensures carries { OnOk result ((m : Moment) → IsAt m player.old → Carries m StepHouse player.old player.new) }
    ensures course { OnOk result (SameCourse player.old player.new) }
    ensures run { KeepsRun F.Fleet F.Wire.told result fleet.old fleet.new player.old player.new wires.old wires.new }
    ensures fails { FailsForMemory result player.old.past player.new.past }
    ensures trimmed { player.new.trimmed ≡ player.old.trimmed }
{
    make_first_chore(player, wires, fleet)?;
    Ok(())
}

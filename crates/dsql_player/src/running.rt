//! Lets the run go on, each step in its turn.
ghost use Rattle.std.specs.Prelude.{◌≡◌, ◌<◌, ◌≤◌, ℕ, Err, None, false, is_some, length, IfOk, OnOk, OnErr};
ghost use Rattle.dsql_engine_laws.specs.history.Rules.House.{chore_due};
ghost use Rattle.dsql_engine_laws.specs.follows.Moments.{Moment};
ghost use Rattle.dsql_player.specs.Carried.{KeepsRun};
ghost use Rattle.dsql_player.specs.Keeping.{SameCourse};
ghost use Rattle.dsql_player.specs.Playing.{IsAt, IsReady};
ghost use Rattle.dsql_player.specs.Stepping.{GoesOn, RunsOut, RunsSoFar, goes};
ghost use Rattle.dsql_engine_laws.specs.laws_steps.Groups.{most_events};
ghost use Rattle.dsql_player_wires.specs.WiresFit.{WiresFit};

use crate::chores::make_first_chore;
use crate::halt::Halt;
use crate::player::Player;
use dsql_engine_laws::Fleet;
use dsql_player_wires::Wires;

/// Lets the run go on until nobody may.
pub(crate) fn run_on<F: Fleet>(
    player: &mut Player,
    wires: &mut Wires<F::Wire>,
    fleet: &mut F,
) -> Result<(), Halt>
    requires ready { IsReady player.old }
    requires wires { WiresFit F.Wire.told (is_some (F.told fleet.old)) player.old.past wires.old }
    ensures out { OnOk result ((m : Moment) → IsAt m player.old → RunsOut m player.old player.new) }
    ensures so_far { OnErr result ((m : Moment) → IsAt m player.old → RunsSoFar m player.old.past player.new.past) }
    ensures no_chore { OnOk result (chore_due player.new.past ≡ None) }
    ensures nobody { OnOk result ((client : ℕ) → goes player.new client ≡ false) }
    ensures course { OnOk result (SameCourse player.old player.new) }
    ensures run { KeepsRun F.Fleet F.Wire.told result fleet.old fleet.new player.old player.new wires.old wires.new }
    ensures full { result ≡ Err Halt.Full → most_events ≤ length player.new.past }
    ensures trimmed { player.new.trimmed ≡ player.old.trimmed }
{
    while go_on(player, wires, fleet)? {}
    Ok(())
}

/// Takes the next step: the first of the layer's own calls. If there is none, the first client that may go on makes a
/// step. Returns `true` if there was a step.
fn go_on<F: Fleet>(
    player: &mut Player,
    wires: &mut Wires<F::Wire>,
    fleet: &mut F,
) -> Result<bool, Halt>
    requires ready { IsReady player.old }
    requires wires { WiresFit F.Wire.told (is_some (F.told fleet.old)) player.old.past wires.old }
    ensures goes { IfOk result (λ more. GoesOn more player.old player.new) }
    ensures room { OnOk result (length player.old.past < most_events) }
    ensures same { OnErr result (player.new.past ≡ player.old.past) }
    ensures course { OnOk result (SameCourse player.old player.new) }
    ensures run { KeepsRun F.Fleet F.Wire.told result fleet.old fleet.new player.old player.new wires.old wires.new }
    ensures full { result ≡ Err Halt.Full → most_events ≤ length player.new.past }
    ensures trimmed { player.new.trimmed ≡ player.old.trimmed }
{
    player.check_room()?;
    if make_first_chore(player, wires, fleet)? {
        return Ok(true);
    }
    match player.next_client() {
        Some(client) => {
            player.go_on_with(wires, client)?;
            Ok(true)
        }
        None => Ok(false),
    }
}

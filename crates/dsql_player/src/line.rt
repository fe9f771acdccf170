//! Carries out lines and the script's end.
ghost use Rattle.std.specs.Prelude.{◌≡◌, ◌<◌, ◌≤◌, ℕ, Err, None, true, false, is_some, length, OnOk, OnErr};
ghost use Rattle.dsql_engine_laws.specs.history.Readers.Course.{has_ended};
ghost use Rattle.dsql_engine_laws.specs.history.Rules.House.{is_quiet};
ghost use Rattle.dsql_player.specs.Keeping.{ActsUnheard, SameCourse, TakesUp};
ghost use Rattle.dsql_player.specs.Naming.{MakeOnce};
ghost use Rattle.dsql_engine_laws.specs.laws_ends.Over.{IsOver};
ghost use Rattle.dsql_engine_laws.specs.follows.Labels.{times_in};
ghost use Rattle.dsql_engine_laws.specs.follows.Moments.{Moment};
ghost use Rattle.dsql_engine_laws.specs.follows.Sentences.{runs_on};
ghost use Rattle.dsql_engine_laws.specs.follows.declared.line.Line.TheVariants.{Fault};
ghost use Rattle.dsql_player.specs.Acts.{Begun};
ghost use Rattle.dsql_player.specs.Carried.{Carries, CarriesEnd, KeepsRun, KeepsRunPlanning, StopsInEnd, StopsInLine};
ghost use Rattle.dsql_player.specs.Planned.{plans_of};
ghost use Rattle.dsql_player.specs.Playing.{IsAt, IsReady};
ghost use Rattle.dsql_engine_laws.specs.laws_steps.Groups.{most_events};
ghost use Rattle.dsql_player_wires.specs.WiresFit.{WiresFit, slot};

use crate::admitting::admit;
use crate::halt::Halt;
use crate::player::Player;
use crate::running::run_on;
use crate::single::{step_client, step_house};
use dsql_engine_laws::{Fleet, Line, Planned};
use dsql_player_wires::{KeptLine, Wires, plan};

/// Carries out a line of the script. After a client's call, a limit, a moment or a fault, everything goes on
/// until nobody may. A call that is held only enters, and a single step is one step. A fault is planned before
/// its line goes on: on the wire of its connection if there is one, and with the fleet otherwise.
///
/// After an `Err` the run can't go on. `retire_all` then gives its wires back.
pub fn carry_line<F: Fleet>(
    player: &mut Player,
    wires: &mut Wires<F::Wire>,
    fleet: &mut F,
    line: Line,
) -> Result<(), Halt>
    requires ready { IsReady player.old }
    requires names { MakeOnce (λ label. times_in label line) player.old.past player.old.seats }
    requires wires { WiresFit F.Wire.told (is_some (F.told fleet.old)) player.old.past wires.old }
    ensures carries { OnOk result ((m : Moment) → IsAt m player.old → Carries m line player.old player.new) }
    ensures stops { OnErr result ((m : Moment) → IsAt m player.old
        → StopsInLine m line player.old.past player.new.past) }
    ensures course { OnOk result (TakesUp (λ label. times_in label line) player.old player.new) }
    ensures run { KeepsRunPlanning
        (plans_of line player.old.past) F.Fleet F.Wire.told result fleet.old fleet.new player.old
        player.new wires.old wires.new }
    ensures full { result ≡ Err Halt.Full → most_events ≤ length player.new.past }
    ensures trimmed { player.new.trimmed ≡ player.old.trimmed }
{
    player.check_room()?;
    match line {
        Line::Start { client, op } => {
            admit(player, client, KeptLine { op, held: true })?;
            Ok(())
        }
        Line::Step { client } => step_client(player, wires, client),
        Line::StepHouse => step_house(player, wires, fleet),
        Line::Fault { conn, nth, what } => carry_fault(player, wires, fleet, conn, nth, what),
        line => {
            begin(player, line)?;
            run_on(player, wires, fleet)
        }
    }
}

/// Plans a fault, on the wire of its connection if there is one, and with the fleet otherwise. Then everything
/// goes on until nobody may. So as the fault is planned, nothing was heard since the line before.
fn carry_fault<F: Fleet>(
    player: &mut Player,
    wires: &mut Wires<F::Wire>,
    fleet: &mut F,
    conn: u32,
    nth: u32,
    what: Planned,
) -> Result<(), Halt>
    requires ready { IsReady player.old }
    requires wires { WiresFit F.Wire.told (is_some (F.told fleet.old)) player.old.past wires.old }
    ensures carries { OnOk result ((m : Moment) → IsAt m player.old
        → Carries m (Fault conn nth what) player.old player.new) }
    ensures stops { OnErr result ((m : Moment) → IsAt m player.old
        → StopsInLine m (Fault conn nth what) player.old.past player.new.past) }
    ensures course { OnOk result (SameCourse player.old player.new) }
    ensures run { KeepsRunPlanning (plans_of
        (Fault conn nth what) player.old.past) F.Fleet F.Wire.told result fleet.old fleet.new player.old
        player.new wires.old wires.new }
    ensures full { result ≡ Err Halt.Full → most_events ≤ length player.new.past }
    ensures trimmed { player.new.trimmed ≡ player.old.trimmed }
{
    plan(wires, fleet, conn, nth, what)?;
    run_on(player, wires, fleet)
}

/// Carries out the script's end. It releases the held calls, lets everything go on, ends the run, and lets
/// everything go on again until nobody may. By then it has shut every connection and given its wire back, so
/// `retire_all` gives back none.
///
/// After an `Err` `retire_all` gives back the wires that are left.
pub fn carry_end<F: Fleet>(
    player: &mut Player,
    wires: &mut Wires<F::Wire>,
    fleet: &mut F,
) -> Result<(), Halt>
    requires ready { IsReady player.old }
    requires running { has_ended player.old.past ≡ false }
    requires wires { WiresFit F.Wire.told (is_some (F.told fleet.old)) player.old.past wires.old }
    ensures carries { OnOk result ((m : Moment) → IsAt m player.old → CarriesEnd m player.old.past player.new.past) }
    ensures stops { OnErr result ((m : Moment) → IsAt m player.old → StopsInEnd m player.old.past player.new.past) }
    ensures over { OnOk result (IsOver player.new.past) }
    ensures ended { OnOk result (has_ended player.new.past ≡ true) }
    ensures quiet { OnOk result (is_quiet player.new.past ≡ true) }
    ensures empty { OnOk result ((c : ℕ) → slot wires.new c ≡ None) }
    ensures run { KeepsRun F.Fleet F.Wire.told result fleet.old fleet.new player.old player.new wires.old wires.new }
    ensures full { result ≡ Err Halt.Full → most_events ≤ length player.new.past }
    ensures trimmed { player.new.trimmed ≡ player.old.trimmed }
{
    player.release();
    run_on(player, wires, fleet)?;
    player.end_run()?;
    run_on(player, wires, fleet)
}

/// Makes the own step of a line that runs on, if the line has one.
fn begin(player: &mut Player, line: Line) -> Result<(), Halt>
    requires ready { IsReady player.old }
    requires names { MakeOnce (λ label. times_in label line) player.old.past player.old.seats }
    requires room { length player.old.past < most_events }
    requires runs { runs_on line ≡ true }
    ensures begins { OnOk result ((m : Moment) → IsAt m player.old → Begun m line player.old player.new) }
    ensures course { OnOk result (TakesUp (λ label. times_in label line) player.old player.new) }
    ensures act { ActsUnheard result player.old player.new }
    ensures trimmed { player.new.trimmed ≡ player.old.trimmed }
{
    match line {
        Line::Control(control) => player.control(control),
        Line::Client { client, op } => {
            admit(player, client, KeptLine { op, held: false })?;
            Ok(())
        }
        _ => Ok(()),
    }
}

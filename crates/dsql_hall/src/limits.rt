//! Sets the limits of a race.
ghost use Rattle.std.specs.Prelude.{◌≡◌, ◌++◌, ◌≤◌, true, reverse, length, Err, OnOk};
ghost use Rattle.std.specs.List.{list_all};
ghost use Rattle.dsql_hall_steps.specs.laws_steps.Groups.{most_events};
ghost use Rattle.dsql_hall_steps.specs.Limits.{set_in, sets_limit};
ghost use Rattle.dsql_hall_steps.specs.Racing.{resting};
ghost use Rattle.dsql_hall_steps.specs.player.Playing.{IsAt, IsReady};
ghost use Rattle.dsql_hall.specs.Raced.{SetsLimits};

use dsql_hall_steps::{Halt, Line, Player};
use dsql_history::{Control, Past};
use std::collections::VecDeque;

/// Sets these limits one after another. `_lines` are the lines of the script, newest first, for proofs alone.
pub fn set_limits(
    player: &mut Player,
    _lines: &Past<Line>,
    limits: VecDeque<Control>,
) -> Result<(), Halt>
    requires ready { IsReady player.old }
    requires at { IsAt (resting (reverse _lines.now.items) player.old) player.old }
    requires limits { list_all sets_limit limits.items ≡ true }
    ensures ready { OnOk result (IsReady player.new) }
    ensures at { OnOk result (IsAt (resting (reverse _lines.now.items) player.new) player.new) }
    ensures set { OnOk result (set_in player.new.past ≡ set_in player.old.past ++ limits.items) }
    ensures sets { SetsLimits (reverse _lines.now.items) limits.items player.old player.new }
    ensures full { result ≡ Err Halt.Full → most_events ≤ length player.new.past }
{
    let mut limits = limits;
    while let Some(limit) = limits.pop_front() {
        player.check_room()?;
        player.control(limit)?;
    }
    Ok(())
}

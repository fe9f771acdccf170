//! Enters a client's line, or keeps it for later.
ghost use Rattle.std.specs.Prelude.{◌≡◌, ◌<◌, length, IfOk, OnOk};
ghost use Rattle.dsql_engine_laws.specs.follows.Labels.{times_by};
ghost use Rattle.dsql_engine_laws.specs.follows.Moments.{Moment};
ghost use Rattle.dsql_player.specs.Keeping.{ActsUnheard, TakesUp};
ghost use Rattle.dsql_player.specs.Naming.{MakeOnce};
ghost use Rattle.dsql_player.specs.Playing.{IsAt, IsReady};
ghost use Rattle.dsql_player.specs.Stepping.{Admits};
ghost use Rattle.dsql_engine_laws.specs.laws_steps.Groups.{most_events};

use crate::halt::Halt;
use crate::player::Player;
use dsql_player_wires::KeptLine;

/// Enters a line of a client if the client is free and has no kept line; otherwise keeps the line. Returns
/// `true` if it entered the line.
pub(crate) fn admit(player: &mut Player, client: u8, line: KeptLine) -> Result<bool, Halt>
    requires ready { IsReady player.old }
    requires room { length player.old.past < most_events }
    requires names { MakeOnce (λ label. times_by label line.op) player.old.past player.old.seats }
    ensures admits { IfOk result (λ entered. (m : Moment) → IsAt m player.old
        → Admits entered m client line player.old player.new) }
    ensures course { OnOk result (TakesUp (λ label. times_by label line.op) player.old player.new) }
    ensures act { ActsUnheard result player.old player.new }
    ensures trimmed { player.new.trimmed ≡ player.old.trimmed }
{
    if player.has_call(client) || player.has_kept(client) {
        player.keep(client, line)?;
        return Ok(false);
    }
    player.enter(client, line)?;
    Ok(true)
}

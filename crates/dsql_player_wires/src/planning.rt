//! Plans faults.
ghost use Rattle.std.specs.Prelude.{◌≡◌, OnOk, OnErr};
ghost use Rattle.dsql_player_wires.specs.Asked.{Plans};
ghost use Rattle.dsql_player_wires.specs.Told.{SameAbility};
ghost use Rattle.dsql_player_wires.specs.WiresFit.{SameWires};

use crate::wires::Wires;
use dsql_history::{Fleet, Memory, Planned};

/// Plans a fault in place of the answer to the nth call of a connection, counted from its Connect. It plans on its wire
/// if it has one, and with the fleet otherwise.
pub fn plan<F: Fleet>(
    wires: &mut Wires<F::Wire>,
    fleet: &mut F,
    conn: u32,
    nth: u32,
    what: Planned,
) -> Result<(), Memory>
    ensures plans { OnOk result
        (Plans F.Wire.told conn (nth, what) (F.told fleet.old) (F.told fleet.new) wires.old wires.new) }
    ensures unplanned { OnErr result (F.told fleet.new ≡ F.told fleet.old) }
    ensures same { OnErr result (SameWires F.Wire.told wires.old wires.new) }
    ensures able { SameAbility F.Fleet fleet.old fleet.new }
{
    if wires.has(conn) {
        wires.plan(conn, nth, what)
    } else {
        fleet.plan(conn, nth, what)
    }
}

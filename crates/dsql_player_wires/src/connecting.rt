//! Opens a connection and puts its wire into its slot.
ghost use Rattle.std.specs.Prelude.{◌≡◌, ◌≢◌, ℕ, [], true, None, is_some, IfOk, OnOk, OnErr};
ghost use Rattle.dsql_history.specs.driver.Wires.{connected_after};
ghost use Rattle.dsql_wire.specs.Calling.{WantsConnect};
ghost use Rattle.dsql_wire.specs.Opening.{opens};
ghost use Rattle.dsql_player_wires.specs.Asked.{Answers};
ghost use Rattle.dsql_player_wires.specs.Made.{no_aside};
ghost use Rattle.dsql_player_wires.specs.Told.{SameAbility};
ghost use Rattle.dsql_player_wires.specs.WiresFit.{slot, OpensWire, RecordsAside};

use crate::wires::Wires;
use dsql_history::{Fleet, Memory, Permit};
use dsql_wire::{Heard, OpenedThin, WireFault, connect_thin};
use std::alloc::Global;

/// Connects a new wire and puts it into its slot, if the driver doesn't refuse. The fleet is asked once, or not at all
/// if there is no memory before.
pub fn connect_wire<F: Fleet>(
    wires: &mut Wires<F::Wire>,
    fleet: &mut F,
    permit: Permit,
) -> Result<Heard, Memory>
    requires empty { slot wires.old permit.conn ≡ None }
    requires opens { opens permit ≡ true }
    ensures heard { IfOk result (Answers permit []) }
    ensures others { OnOk result ((c : ℕ) → c ≢ permit.conn → slot wires.new c ≡ slot wires.old c) }
    ensures wire { IfOk result
        (λ heard. OpensWire F.Wire.told (is_some (F.told fleet.old)) heard (slot wires.new permit.conn)) }
    ensures unplanned { OnOk result (RecordsAside F.Wire.told no_aside (slot wires.new permit.conn)) }
    ensures asked { IfOk result
        (λ heard. F.told fleet.new ≡ connected_after permit.conn heard.answer (F.told fleet.old)) }
    ensures same { OnErr result ((c : ℕ) → slot wires.new c ≡ slot wires.old c) }
    ensures wants { OnErr result (WantsConnect permit.conn (F.told fleet.old) (F.told fleet.new)) }
    ensures able { SameAbility F.Fleet fleet.old fleet.new }
{
    let number = permit.conn;
    wires.make_room(number)?;
    let OpenedThin { wire, heard } = open_wire(wires.alloc(), fleet, permit)?;
    wires.put_any(number, wire);
    Ok(heard)
}

/// Asks the fleet for a connection, by a permit that may open one. Returns the new wire, unless the driver refuses. The
/// fleet is asked once, or not at all if there is no memory before.
pub fn open_wire<F: Fleet>(
    alloc: Global,
    fleet: &mut F,
    permit: Permit,
) -> Result<OpenedThin<F::Wire>, Memory>
    requires { opens permit ≡ true }
    ensures heard { IfOk result (λ opened. Answers permit [] opened.heard) }
    ensures wire { IfOk result
        (λ opened. OpensWire F.Wire.told (is_some (F.told fleet.old)) opened.heard opened.wire) }
    ensures unplanned { IfOk result (λ opened. RecordsAside F.Wire.told no_aside opened.wire) }
    ensures asked { IfOk result
        (λ opened. F.told fleet.new ≡ connected_after permit.conn opened.heard.answer (F.told fleet.old)) }
    ensures wants { OnErr result (WantsConnect permit.conn (F.told fleet.old) (F.told fleet.new)) }
    ensures able { SameAbility F.Fleet fleet.old fleet.new }
{
    match connect_thin(alloc, fleet, permit) {
        Ok(opened) => Ok(opened),
        Err(WireFault::Memory(_)) => Err(Memory),
        Err(WireFault::Stray(_)) => unreachable!(),
    }
}

//! Gives wires back to their fleet.
ghost use Rattle.std.specs.Prelude.{ℕ, ◌≡◌, reverse, slice_set, Some, None, IsSome, IfSome};
ghost use Rattle.dsql_history.specs.driver.Wires.{retired_after};
ghost use Rattle.dsql_wire.specs.Told.{TellsOf};
ghost use Rattle.dsql_player_wires.specs.Stopped.{RecordsJournal};
ghost use Rattle.dsql_player_wires.specs.Told.{SameAbility, retired_from, retired_slot};
ghost use Rattle.dsql_player_wires.specs.WiresFit.{slot};

use crate::wires::Wires;
use dsql_history::Fleet;
use dsql_wire::{RetiredThin, ThinWire};

/// Gives the wire of this connection back to the fleet. If the wire keeps a record, the record is exactly its
/// journal.
pub fn retire<F: Fleet>(wires: &mut Wires<F::Wire>, fleet: &mut F, conn: u32)
    requires { IsSome (slot wires.old conn) }
    ensures slots { wires.new ≡ slice_set wires.old conn None }
    ensures told { F.told fleet.new
        ≡ retired_slot F.Wire.told conn (slot wires.old conn) (F.told fleet.old) }
    ensures exact { RecordsJournal F.Wire.told (slot wires.old conn) }
    ensures able { SameAbility F.Fleet fleet.old fleet.new }
{
    retire_wire(wires.take(conn), conn, fleet);
}

/// Gives every wire that is left back to the fleet, the largest number first. If none is left, the fleet
/// records what it recorded before. If a wire keeps a record, the record is exactly its journal.
pub fn retire_all<F: Fleet>(wires: Wires<F::Wire>, fleet: &mut F)
    ensures retired { F.told fleet.new
        ≡ retired_from F.Wire.told (reverse wires) (F.told fleet.old) }
    ensures exact { (c : ℕ) → RecordsJournal F.Wire.told (slot wires c) }
    ensures unasked { ((c : ℕ) → slot wires c ≡ None) → F.told fleet.new ≡ F.told fleet.old }
    ensures able { SameAbility F.Fleet fleet.old fleet.new }
{
    let mut slots = wires.into_slots();
    while let Some(slot) = slots.pop() {
        retire_slot(slot, slots.len() as u32, fleet);
    }
    slots.destroy_empty();
}

/// Gives the wire of this connection back, if there is one.
fn retire_slot<F: Fleet>(slot: Option<ThinWire<F::Wire>>, number: u32, fleet: &mut F)
    ensures retired { F.told fleet.new
        ≡ retired_slot F.Wire.told number slot (F.told fleet.old) }
    ensures exact { RecordsJournal F.Wire.told slot }
    ensures able { SameAbility F.Fleet fleet.old fleet.new }
{
    match slot {
        Some(wire) => retire_wire(wire, number, fleet),
        None => {}
    }
}

/// Gives a wire that is out of its slot back to the fleet, under the number of this connection. If the wire keeps a
/// record, the record is exactly its journal.
pub fn retire_wire<F: Fleet>(wire: ThinWire<F::Wire>, conn: u32, fleet: &mut F)
    ensures retired { F.told fleet.new
        ≡ retired_after conn (F.Wire.told wire.wire) (F.told fleet.old) }
    ensures exact { IfSome (F.Wire.told wire.wire) (TellsOf wire.conn wire.journal) }
    ensures able { SameAbility F.Fleet fleet.old fleet.new }
{
    let RetiredThin { number: _, wire } = wire.retire();
    fleet.retire(conn, wire);
}

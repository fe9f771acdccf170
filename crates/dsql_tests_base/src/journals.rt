//! A wire that keeps its journal, over the driver in memory.

use dsql_driver::{DriverCall, Fleet, Wire};
use dsql_mem::MemFleet;
use dsql_tenure_journal::{Owner, Permit};
use dsql_wire::{JournaledWire, Opened, Retired, connect};
use std::test::Fail;

/// Returns the layer's permit for a driver call on connection 1.
fn leave(tenure: u32, call: DriverCall) -> Permit {
    Permit {
        conn: 1,
        tenure,
        owner: Owner::House,
        call_no: 0,
        tx: 0,
        call,
    }
}

/// Shuts the connection and gives its wire back. Returns how many entries its journal showed, and how many were
/// handed over.
fn shut<F: Fleet>(fleet: &mut F, wire: JournaledWire<F::Wire>) -> (usize, usize) {
    let mut wire = wire;
    let _heard = wire.perform(leave(2, DriverCall::Shut));
    let shown = wire.journal().len();
    let Retired {
        number,
        journal,
        wire,
    } = wire.retire();
    fleet.retire(number, wire);
    (shown, journal.len())
}

#[test]
fn a_journaled_wire_keeps_its_entries(rt: HostRuntime) -> Result<(), Fail> {
    let alloc = rt.alloc();
    let mut fleet = MemFleet::new(rt.clone()?)?;
    let Opened { wire, heard: _ } = connect(alloc, &mut fleet, leave(1, DriverCall::Connect))?;
    let entries = match wire {
        Some(wire) => shut(&mut fleet, wire),
        None => (0, 0),
    };
    assert!(rt; entries == (2, 2));
    Ok(())
}

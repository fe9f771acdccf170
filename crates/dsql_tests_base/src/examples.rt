//! The examples at the heads of dsql_driver and dsql_hall_bonds.
ghost use Rattle.std.specs.Prelude.{◌≡◌};

use dsql_driver::{DriverAnswer, DriverCall, Fleet, Refused, Wire};
use dsql_hall_bonds::{CellName, Unnamed};
use dsql_mem::MemFleet;
use std::marker::Brand;
use std::test::Fail;

/// Is true if a connection of the fleet answers Done to a ping and when it is shut.
fn pings_and_shuts<F: Fleet>(fleet: &mut F) -> Result<bool, Refused> {
    let mut wire = fleet.connect(1)?;
    let pinged = wire.call(&DriverCall::Ping);
    let shut = wire.call(&DriverCall::Shut);
    fleet.retire(1, wire);
    Ok(matches!(pinged.answer, DriverAnswer::Done) && matches!(shut.answer, DriverAnswer::Done))
}

#[test]
fn a_fleet_opens_a_connection_and_takes_it_back(rt: HostRuntime) -> Result<(), Fail> {
    let mut fleet = MemFleet::new(rt.clone()?)?;
    assert!(rt; pings_and_shuts(&mut fleet)?);
    Ok(())
}

/// Makes a bond and takes it back.
fn ties_and_unties<C: CellName>(unnamed: Unnamed)
    requires { unnamed ≡ C.cell }
{
    let (cell, mut keeper) = unnamed.named::<C>();
    let bond = keeper.tie::<Brand>(&cell);

    // The thread with the bond lets go of the lock, makes its driver call, and takes the lock again.
    keeper.untie(&cell, bond);
}

#[test]
fn a_bond_goes_out_and_comes_back(rt: HostRuntime) -> Result<(), Fail> {
    ties_and_unties::<Brand>(Unnamed::new(rt.alloc())?);
    Ok(())
}

//! Tests of the store of the driver in memory. A lock guards it, so no clause says what is in it.

use crate::mem::exec;
use dsql_driver::{DriverAnswer, DriverCall, Fleet, Input, Wire};
use dsql_mem::MemFleet;
use dsql_value::{Items, Memory, Param, Txt, Value};
use std::alloc::Global;
use std::test::Fail;

/// Returns the driver call that lists every key by a wire's first handle.
fn list_by_first_handle(alloc: Global) -> Result<DriverCall, Memory> {
    let value = Value::Text(Txt::copy_of(alloc, "")?);
    let param = Param { name: None, value };
    let params = Items::new(vec![in alloc; param]?);
    Ok(DriverCall::Query(Input::Handle(1), params))
}

/// Is true if a new wire finds no key. Its first handle and its first cursor have the number 1.
fn finds_no_key<W: Wire>(alloc: Global, wire: &mut W) -> Result<bool, Memory> {
    let prepare = DriverCall::Prepare(Txt::copy_of(alloc, "LIST ?")?);
    let list = list_by_first_handle(alloc)?;
    let _prepared = wire.call(&prepare);
    let _found = wire.call(&list);
    let fetched = wire.call(&DriverCall::Next(1));
    Ok(matches!(fetched.answer, DriverAnswer::End))
}

/// Is true if a wire writes the key `a`.
fn writes<W: Wire>(alloc: Global, wire: &mut W) -> Result<bool, Memory> {
    let set = exec(alloc, "SET a 1")?;
    let written = wire.call(&set);
    Ok(matches!(written.answer, DriverAnswer::Result { .. }))
}

/// Is true if a wire that has made no query finds the key `a`. Its first cursor has the number 1.
fn finds<W: Wire>(alloc: Global, wire: &mut W) -> Result<bool, Memory> {
    let text = Txt::copy_of(alloc, "GET a")?;
    let get = DriverCall::Query(Input::Text(text), Items::none(alloc));
    let _found = wire.call(&get);
    let fetched = wire.call(&DriverCall::Next(1));
    Ok(matches!(fetched.answer, DriverAnswer::Row(_)))
}

#[test]
fn the_store_of_a_new_fleet_is_empty(rt: HostRuntime) -> Result<(), Fail> {
    let mut fleet = MemFleet::new(rt.clone()?)?;
    let mut wire = fleet.connect(1)?;
    assert!(rt; finds_no_key(rt.alloc(), &mut wire)?);
    Ok(())
}

#[test]
fn a_wire_finds_what_another_one_wrote(rt: HostRuntime) -> Result<(), Fail> {
    let mut fleet = MemFleet::new(rt.clone()?)?;
    let mut writer = fleet.connect(1)?;
    let mut reader = fleet.connect(2)?;
    assert!(rt; writes(rt.alloc(), &mut writer)?);
    assert!(rt; finds(rt.alloc(), &mut reader)?);
    Ok(())
}

#[test]
fn a_wire_finds_what_it_wrote_before(rt: HostRuntime) -> Result<(), Fail> {
    let mut fleet = MemFleet::new(rt.clone()?)?;
    let mut wire = fleet.connect(1)?;
    assert!(rt; writes(rt.alloc(), &mut wire)?);
    assert!(rt; finds(rt.alloc(), &mut wire)?);
    Ok(())
}

//! Tables of what is open. Those that no run uses reserve memory, and the others need none reserved before.

use dsql_pin::Pins;
use dsql_pool::{AskFault, Asked, Owner, Pool, Request};
use dsql_rows::RowsTable;
use dsql_stmt::Stmts;
use dsql_tx::Txs;
use dsql_value::{Items, Memory};
use std::alloc::Global;

#[test]
fn there_is_memory_for_statements(rt: HostRuntime) -> Result<(), Memory> {
    Stmts::new(rt.alloc()).reserve(2)
}

#[test]
fn there_is_memory_for_transactions(rt: HostRuntime) -> Result<(), Memory> {
    Txs::new(rt.alloc()).reserve(2)
}

#[test]
fn there_is_memory_for_pins(rt: HostRuntime) -> Result<(), Memory> {
    Pins::new(rt.alloc()).reserve(2)
}

#[test]
fn there_is_memory_for_rows(rt: HostRuntime) -> Result<(), Memory> {
    RowsTable::new(rt.alloc()).begin_rows(5, 2, Items::none(rt.alloc()))
}

/// Asks a new pool for the first call's connection.
fn ask_first(alloc: Global) -> Result<Asked, AskFault> {
    Pool::new(alloc).ask(Request {
        call: 1,
        owner: Owner::Call(1),
        last: false,
        token: None,
        asked: 0,
    })
}

#[test]
fn a_connection_is_opened_for_the_first_call(rt: HostRuntime) {
    assert_eq!(rt; ask_first(rt.alloc()), Ok(Asked::Opening(1)));
}

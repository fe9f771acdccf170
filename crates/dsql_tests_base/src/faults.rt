//! Texts of faults.

use dsql_driver::DriverCall;
use dsql_rows::{RowsFault, RowsOver};
use dsql_scan::{Dest, Kind, RowFault, ScanFault};
use dsql_tenure_journal::{Owner, Permit};
use dsql_value::{ArgFault, Txt};
use dsql_wire::WireFault;
use std::fmt::Display;
use std::process::Abort;
use std::test::Fail;

/// Asserts that this is the text of the fault.
fn assert_told<T: Display + Drop>(
    rt: &(impl Abort + AllocGlobal),
    fault: T,
    want: &str,
) -> Result<(), Fail> {
    let told = format!(in rt.alloc(); "{fault}")?;
    assert_eq!(rt; told.as_str(), want);
    Ok(())
}

#[test]
fn refused_values_have_their_texts(rt: HostRuntime) -> Result<(), Fail> {
    let high = "sql: unsigned value has its high bit set";
    assert_told(&rt, ArgFault::HighBit(9_223_372_036_854_775_808), high)?;
    let counted = "sql: expected 2 arguments, got 1";
    assert_told(&rt, ArgFault::NumArgs { want: 2, got: 1 }, counted)?;
    assert_told(&rt, ArgFault::Memory, "out of memory")
}

#[test]
fn refused_names_have_their_texts(rt: HostRuntime) -> Result<(), Fail> {
    let refused = ArgFault::NamedRefused(Txt::copy_of(rt.alloc(), "id")?);
    let want = "sql: driver does not support the use of Named Parameters";
    assert_told(&rt, refused, want)?;
    let bad = ArgFault::BadName(Txt::copy_of(rt.alloc(), "1d")?);
    assert_told(&rt, bad, "sql: name does not begin with a letter")
}

/// Asserts that this is the text of a fault of the first column.
fn assert_first(rt: &(impl Abort + AllocGlobal), fault: ScanFault, want: &str) -> Result<(), Fail> {
    assert_told(rt, RowFault::At { index: 0, fault }, want)
}

#[test]
fn unfit_values_have_their_texts(rt: HostRuntime) -> Result<(), Fail> {
    let nil = "column 0: nil doesn't go into U8";
    assert_first(&rt, ScanFault::FromNull(Dest::U8), nil)?;
    let from = Kind::Int;
    let dest = Dest::Time;
    let unsupported = ScanFault::Unsupported { from, dest };
    assert_first(&rt, unsupported, "column 0: Int doesn't go into Time")?;
    assert_first(&rt, ScanFault::NotABool, "column 0: not a truth value")?;
    assert_first(&rt, ScanFault::NotUtf8, "column 0: not UTF-8")
}

#[test]
fn unfit_numbers_have_their_texts(rt: HostRuntime) -> Result<(), Fail> {
    assert_first(&rt, ScanFault::NotANumber, "column 0: not a number")?;
    let range = "column 0: number out of range";
    assert_first(&rt, ScanFault::OutOfRange, range)?;
    assert_first(&rt, ScanFault::Memory, "column 0: out of memory")
}

#[test]
fn unfit_rows_have_their_texts(rt: HostRuntime) -> Result<(), Fail> {
    let counted = RowFault::DestCount { want: 3, got: 1 };
    assert_told(&rt, counted, "expected 3 destinations, not 1")?;
    assert_told(&rt, RowFault::Memory, "out of memory")
}

#[test]
fn rows_that_are_not_scanned_have_their_texts(rt: HostRuntime) -> Result<(), Fail> {
    let closed = RowsFault::RowsClosed(RowsOver::EndOfRows);
    assert_told(&rt, closed, "sql: Rows are closed")?;
    let early = "sql: Scan called without calling Next";
    assert_told(&rt, RowsFault::NoNextYet, early)?;
    let counted = RowsFault::Scan(RowFault::DestCount { want: 3, got: 1 });
    let want = "sql: Scan error: expected 3 destinations, not 1";
    assert_told(&rt, counted, want)
}

/// Returns the layer's permit for a driver call on connection 1.
fn permit() -> Permit {
    Permit {
        conn: 1,
        tenure: 1,
        owner: Owner::House,
        call_no: 0,
        tx: 0,
        call: DriverCall::Ping,
    }
}

#[test]
fn faults_of_wires_have_their_texts(rt: HostRuntime) -> Result<(), Fail> {
    assert_told(&rt, WireFault::Stray(permit()), "a stray permit")?;
    assert_told(&rt, WireFault::Memory(permit()), "out of memory")
}

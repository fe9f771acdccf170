ghost use Rattle.std.specs.Prelude.{◌≡◌, ◌≢◌, ℕ, Err, length, min};
ghost use Rattle.dsql_scan.specs.Rows.{IsRow, answers_of, cells_of, in_32_bits, row_of};

use crate::cell::{Cell, Cells};
use crate::column::scan;
use crate::dest::Dest;
use crate::fault::{RowFault, ScanFault};
use dsql_value::{Items, Value};
use std::alloc::Global;

/// Returns what the values of a row become in as many destinations, each by the scan table. If there are more
/// or fewer destinations, it reads no value and fails with `DestCount`. Otherwise it fails with the fault of
/// the first value that `scan` refuses. After Go's `Rows.Scan`.
pub fn scan_row(alloc: Global, values: &[Value], dests: &[Dest]) -> Result<Cells, RowFault>
    ensures answer { IsRow result (row_of values.now dests.now) }
    ensures dest_count { length values.now ≢ length dests.now
        → result ≡ Err (RowFault.DestCount (in_32_bits (length values.now)) (in_32_bits (length dests.now))) }
    ensures fault_is_not_memory { (index : ℕ) → result ≢ Err (RowFault.At index ScanFault.Memory) }
{
    if values.len() != dests.len() {
        return Err(RowFault::DestCount {
            want: in_32_bits(values.len()),
            got: in_32_bits(dests.len()),
        });
    }
    scan_columns(alloc, values, dests)
}

/// Returns what the values become in the destinations at their places, or the first fault.
fn scan_columns(alloc: Global, values: &[Value], dests: &[Dest]) -> Result<Cells, RowFault>
    ensures answer { IsRow result (cells_of 0 (answers_of values.now dests.now)) }
    ensures fault_is_not_memory { (index : ℕ) → result ≢ Err (RowFault.At index ScanFault.Memory) }
{
    let mut cells: Vec<Cell> = Vec::new(alloc);
    for (value, dest) in values.iter().zip(dests) {
        let cell = match scan(alloc, value, *dest) {
            Ok(cell) => cell,
            Err(ScanFault::Memory) => return Err(RowFault::Memory),
            Err(fault) => {
                return Err(RowFault::At {
                    index: in_32_bits(cells.len()),
                    fault,
                });
            }
        };
        if cells.push(cell).is_err() {
            return Err(RowFault::Memory);
        }
    }
    Ok(Items::new(cells))
}

fn in_32_bits(number: usize) -> u32
    ensures { result ≡ in_32_bits number }
{
    u32::try_from(number).unwrap_or(u32::MAX)
}

//! Scans a driver's values into destinations, as `Rows.Scan` and `Row.Scan` of Go's package `database/sql` do.
//! Covers that package's types `NullString`, `NullInt64` and the like.
#![tactic(auto)]

mod cell;
mod column;
mod dest;
mod fault;
pub mod laws;
mod number;
mod row;
mod truth;

pub use cell::{Cell, Cells};
pub use column::scan;
pub use dest::{Dest, Dests, Kind};
pub use fault::{RowFault, ScanFault};
pub use row::scan_row;

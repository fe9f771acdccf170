//! The table of open rows, modelled on `Rows` of Go's package `database/sql`. It keeps the rows that were made,
//! their current row, and what ended them first.
#![tactic(auto)]

mod end;
mod fault;
pub mod laws;
mod rows;
mod table;

pub use dsql_cancel::Cause;
pub use end::{RowsEnd, RowsOver};
pub use fault::{RowsClosed, RowsFault};
pub use table::RowsTable;

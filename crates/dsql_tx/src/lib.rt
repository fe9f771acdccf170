//! The table of transactions, each like a `Tx` of Go's package `database/sql`. It records on which connection
//! each was begun, and what ended it first.
#![tactic(auto)]

mod end;
pub mod laws;
mod table;
mod tx;

pub use dsql_cancel::Cause;
pub use end::{TxDone, TxEnd};
pub use table::Txs;

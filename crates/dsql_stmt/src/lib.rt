//! The table of prepared statements, after `Stmt` of Go's package `database/sql`. It records what was prepared,
//! the live handles on the connections, and which call closed a statement first.
#![tactic(auto)]

mod fault;
pub mod laws;
mod lists;
mod stmt;
mod table;

pub use fault::StmtClosed;
pub use stmt::Home;
pub use table::{Handles, Stmts};

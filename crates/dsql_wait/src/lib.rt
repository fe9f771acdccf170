//! Requests of calls that wait for a connection, served in the order in which they came. In Go's package
//! `database/sql` they wait when `DB.SetMaxOpenConns` is reached.
#![tactic(auto)]

pub mod laws;
mod request;
mod waiting;

pub use dsql_tenure_journal::Owner;
pub use request::Request;
pub use waiting::Waiting;

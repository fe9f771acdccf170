//! Laws of lawful histories: what events leave unchanged for the other calls. They cover a request for a connection, a
//! lending, and a connection that is given back. They also cover the close of rows or of the database, and a
//! transaction's end. They also cover calls that reply although they have sent nothing, and events that touch no other
//! call. Each law is the contract of a function that does nothing.
#![tactic(auto)]

pub mod asking;
pub mod closed_database;
pub mod closed_rows;
pub mod ended_transactions;
pub mod leaving;
pub mod lending;
pub mod others;
pub mod told;

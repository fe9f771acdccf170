//! Laws of lawful histories: callers are kept apart. A test of each answer says which call may send a driver call, and
//! in which tenure. Each law is the contract of a function that does nothing.
#![tactic(auto)]

pub mod laws;
pub mod worked;

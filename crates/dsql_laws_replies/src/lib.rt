//! Laws of lawful histories: a call that has nothing left to do except to reply has a settled reply. Each law
//! is the contract of a function that does nothing.
#![tactic(auto)]

pub mod laws;

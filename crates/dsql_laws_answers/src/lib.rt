//! Laws of lawful histories: what a driver's answer leaves unchanged for the other calls. Live rows of a call on the
//! database can be fetched from. Each law is the contract of a function that does nothing.
#![tactic(auto)]

pub mod answers;
pub mod fetching;
pub mod serving;

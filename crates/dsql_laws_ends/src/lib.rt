//! Laws of lawful histories, up to their ends. They say which call is whose, which calls have run out, and what is left
//! when the run is over. Each law is the contract of a function that does nothing.
#![tactic(auto)]

pub mod alone;
pub mod clients;
pub mod over;
pub mod quiet;

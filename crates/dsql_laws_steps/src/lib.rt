//! Laws of consecutive steps of the layer's core, which together make up the events that follow a script's
//! line. Each law is the contract of a function that does nothing.
#![tactic(auto)]

pub mod laws;
pub mod worked;

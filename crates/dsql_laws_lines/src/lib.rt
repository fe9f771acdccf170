//! Laws of a script's lines: which events follow a line, given the steps that these events make up. Each law is
//! the contract of a function that does nothing.
#![tactic(auto)]

pub mod kept;
pub mod running;
pub mod single;
pub mod turns;
pub mod waking;

//! Defines the forms of arguments and of destinations in a script, each under its name, and why a line of a
//! script is refused.
#![tactic(auto)]

mod dests;
mod fault;
mod forms;

pub use dests::read_dests;
pub use fault::{LineFault, What};
pub use forms::{MAX_ARGS, number_arg, read_form};

//! The table of pins. A pin is a connection that a caller keeps, like a `Conn` of Go's package `database/sql`.
//! The table records what each pin holds, and what ended it first.
#![tactic(auto)]

mod end;
pub mod laws;
mod pin;
mod table;

pub use end::{ConnDone, PinEnd};
pub use table::Pins;

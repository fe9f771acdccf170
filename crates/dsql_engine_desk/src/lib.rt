//! The desk of the layer's core holds the present state of a run beside its history. Each event method appends
//! its event, and the moves that the pool makes because of it, to both.
#![tactic(auto)]

mod chores;
mod deciding;
mod desk;
mod ending;
mod entering;
mod entering_rows;
mod events;
mod next;
mod questions;
mod room;
mod sending;
mod standing;
mod tables;

pub use desk::Desk;
pub use dsql_engine_calls::{CallRow, CallStart, NoRoom};
pub use dsql_engine_effects::fate_of;
pub use dsql_engine_exchanged::{BareCall, Leave, Statement};
pub use room::Room;

//! Plays the lines of a script on the layer's core, over the wires of a fleet. It carries out each line, each
//! step in its turn, and then the script's end.
#![tactic(auto)]

mod admitting;
mod apart;
mod asking;
pub mod carrying;
mod chores;
mod entering;
mod halt;
mod in_turn;
mod line;
mod player;
mod questions;
mod running;
mod single;
pub mod staying;
pub mod taking_steps;
mod waking;
mod whose_turn;

pub use dsql_engine::Room;
pub use halt::Halt;
pub use line::{carry_end, carry_line};
pub use player::Player;

//! Plays a race under one lock. The clients' lines are all read before. Each client has a thread, which takes the
//! client's steps. The house, on the calling thread, takes the layer's.
//!
//! The hall is what the lock keeps: the player, the wires that are at home, and what is out. A thread takes an errand
//! out of the hall, lets go of the lock, makes the driver call, and brings back what it heard.
//!
//! Each hall keeps what `IsHall` says, however the threads take turns. Its history is legal, and each client's lines
//! enter in their order. While nothing has stopped the run, wires and history fit.
#![tactic(auto)]

mod chore;
mod clients;
mod closing;
mod errand;
mod hall;
mod hearing;
mod house;
pub mod laws;
mod opening;
mod race;
mod returning;
mod step;
mod waking;

pub use chore::Chore;
pub use closing::Closed;
pub use dsql_engine_laws::{Control, Fleet, Line, Wire};
pub use dsql_hall_bonds::{Bond, Cell, Keeper, Memory, Unnamed};
pub use dsql_player::{Halt, Player, Room, carry_end, carry_line};
pub use dsql_player_wires::{KeptLine, Wires, retire_all, retire_wire};
pub use errand::{Back, Errand, Unheard};
pub use hall::Hall;
pub use opening::{Opened, Opening, Unopened};
pub use race::Race;
pub use step::Step;

//! Races a script on threads. Its clients' lines are all kept first, and then each client goes on by itself, on a
//! thread of its own. The house, on the calling thread, opens and shuts connections, and sets limits and moments. One
//! legal history comes of it, in whatever order the threads take their steps.
//!
//! All share one hall under one lock. No driver call is made while a thread holds the lock. That is the order of the
//! code, and no contract says it. Nor does a contract say that the threads get on. Besides its driver calls, a thread
//! waits only for the lock, and until another thread picks it because it may go on. At the end the house waits for the
//! other threads.
#![tactic(auto)]

mod client;
mod ending;
mod house;
mod limits;
mod moments;
mod raced;
mod racing;
mod shared;
mod threads;
mod turns;
mod waiting;
mod worked;

pub use dsql_hall_steps::{
    Control, Fleet, Halt, KeptLine, Line, Player, Room, Wires, carry_end, carry_line, retire_all,
};
pub use dsql_history::{Clock, Failed, Gate, Memory, Past, Sink, Source, Txt};
pub use limits::set_limits;
pub use moments::needs_time;
pub use raced::Raced;
pub use racing::race;
pub use worked::worked_races;

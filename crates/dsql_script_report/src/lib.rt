//! Writes the lines of a run's report. Each is an event as a line of JSON, with the calls, driver calls, answers, moves
//! and replies that it holds.
#![tactic(auto)]

mod calls;
mod levels;
mod line;
mod ops;
mod replies;
mod words;

pub use calls::{write_answer, write_call};
pub use line::{append_line, event_line};
pub use ops::write_entered;
pub use replies::write_reply;

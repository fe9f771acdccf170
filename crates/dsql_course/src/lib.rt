//! The course of a call: which driver calls it makes in one try on the connection that is lent to it, and in
//! which order.
#![tactic(auto)]

mod call;
mod course;
pub mod laws;
mod line;
mod progress;
mod step;

pub use call::{Due, Got};
pub use course::{Course, Wish};
pub use progress::Progress;

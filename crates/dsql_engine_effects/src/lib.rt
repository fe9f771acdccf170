//! What a call decides as it enters, and what each answer in a history decides for its call. How both change the calls,
//! the rows, the transactions and the labels.
#![tactic(auto)]

mod deciding;
pub mod ending;
pub mod labels;
pub mod laws;
pub mod rows;
pub mod starting;
mod telling;

pub use deciding::{decided_by, fate_of};
pub use telling::tell_answer;

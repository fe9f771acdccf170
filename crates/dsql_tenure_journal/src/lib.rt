//! The journal of one connection: who held it when, which driver calls the layer made on it, and what the
//! driver answered.
#![tactic(auto)]

mod entry;
pub mod laws;
pub mod worked;

pub use entry::{Entry, Owner, Permit};

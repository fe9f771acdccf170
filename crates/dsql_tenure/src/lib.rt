//! The judge of a connection's journal. It hears the entries one at a time, and accepts exactly those that keep
//! the journal a beginning of a whole one.
#![tactic(auto)]

mod accepts;
mod fault;
mod hear;
mod heard;
mod judge;
pub mod laws;
mod place;
mod rules;
mod so_far;
mod tables;
mod tenure;
mod transaction;

pub use dsql_tenure_journal::{Entry, Owner, Permit};
pub use fault::{JudgeFault, Phase};
pub use judge::Judge;

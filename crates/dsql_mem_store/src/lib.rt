//! The store of the in-memory driver: texts with their values, and what a transaction's rollback restores.
#![tactic(auto)]

pub mod laws;
mod note;
mod store;

pub use note::Note;
pub use store::{Entry, Store};

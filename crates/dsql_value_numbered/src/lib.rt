//! Things by their numbers, in the order in which they were made. Contracts of tables that hold such things use
//! these definitions.
#![tactic(auto)]

pub mod laws;

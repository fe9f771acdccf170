//! Proves that callers are kept apart. The law is the contract of a function that does nothing.
#![tactic(auto)]

pub mod apart;

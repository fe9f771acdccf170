//! Laws of what may be heard next in lawful histories. Each law is the contract of a function that does
//! nothing.
#![tactic(auto)]

pub mod fetches;
pub mod heard;
pub mod replies;

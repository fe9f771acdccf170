//! Defines when a history follows a script, and which part of the history follows which line. A line makes a
//! client's call, holds it, or makes a single step. The lines of a client whose call is unfinished are kept
//! until it is free.
#![tactic(auto)]

pub mod laws;
mod line;

pub use line::Line;

//! Carries out a driver call on a store and a session, or answers with a fault in its place.
#![tactic(auto)]

mod calls;

pub use calls::{apply, step_unless};

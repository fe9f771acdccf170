//! The length of a run.

/// The greatest number of events that a run may have.
pub const MAX_EVENTS: usize = 4_000_000;

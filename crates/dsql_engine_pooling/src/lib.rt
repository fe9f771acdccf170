//! The driver calls under way for clients' calls, the log of a run's events, and uses of the pool with the memory
//! already taken.
#![tactic(auto)]

pub mod asking;
mod flights;
mod log;
pub mod places;
pub mod pooling;

pub use dsql_laws::Flight;
pub use flights::Flights;
pub use log::EventLog;

//! The sessions of the driver in memory. A session is what the driver keeps for one connection, and runs statements of
//! a few words over a store.
#![tactic(auto)]

mod execute;
mod failures;
mod filled;
mod number;
mod prepare;
mod query;
mod session;
mod shape;
mod statement;
mod undo;

pub use execute::{Outcome, execute_in};
pub use failures::{NO_SUCH_HANDLE, NO_TRANSACTION, NUMBERS_SPENT};
pub use prepare::prepare_in;
pub use query::{Found, query_in};
pub use session::MemSession;
pub use undo::Undo;

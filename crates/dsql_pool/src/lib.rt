//! A pool of connections: which are open, who holds each of them, and who waits for one. A call makes moves among the
//! four sets. It follows the `connectionOpener`, `conn` and `putConn` of Go's package `database/sql`.
#![tactic(auto)]

mod conn;
mod conns;
pub mod laws;
mod lists;
mod moves;
mod pool;
mod request;
mod stats;
pub mod worked;

pub use conn::{Conn, Place};
pub use dsql_tenure_journal::Owner;
pub use dsql_time::Limits;
pub use dsql_wait::Request;
pub use moves::{CloseCause, Fate, Move, Outcome};
pub use pool::{MOST_OPEN, Pool};
pub use request::{AskFault, Asked};
pub use stats::{Counts, Stats};

//! A database driver in memory, for runs without a database. A store maps texts to values, and each statement
//! is a few words.
//!
//! The wires of a fleet share one store under a lock. All that a lock tells a contract is what holds of every store:
//! its keys ascend. So no clause promises any of these, and only tests show them:
//!
//! - The store of a new fleet is empty.
//! - All wires of a fleet share one store.
//! - A call is answered from the store as earlier calls left it, those of its wire and those of other ones.
#![tactic(auto)]

mod connection;
mod fleet;
pub mod laws;
mod wire;
pub mod worked;

pub use dsql_mem_calls::apply;
pub use dsql_mem_session::MemSession;
pub use dsql_mem_store::Store;
pub use fleet::MemFleet;
pub use wire::MemWire;

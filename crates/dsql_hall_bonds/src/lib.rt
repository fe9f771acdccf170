//! Bonds tie work that a thread takes out of a lock to a keeper, which stays under the lock. Such work is a driver
//! call, which the thread makes on a connection after it let go of the lock.
//!
//! The thread takes the bond of its work along. When the bond comes back, the keeper knows that this very work is out.
//! That is proved, and nothing is compared at run time. Bonds and keepers take no bytes, and nothing copies them.
//!
//! A keeper makes a bond and takes it back:
//!
//! ```
//! let (cell, mut keeper) = unnamed.named::<C>();
//! let bond = keeper.tie::<Brand>(&cell);
//!
//! // The thread with the bond lets go of the lock, makes its driver call, and takes the lock again.
//! keeper.untie(&cell, bond);
//! ```
#![tactic(auto)]

mod cell;
mod keeper;
mod names;
mod rule;
mod threads;
mod unnamed;

pub use cell::Cell;
pub use dsql_history::Memory;
pub use keeper::{Bond, Keeper};
pub use names::{CellName, WorkName};
pub use unnamed::Unnamed;

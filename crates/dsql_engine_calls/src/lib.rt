//! The row of each call of a history, and the reply that is settled for it.
#![tactic(auto)]

mod call;
mod no_room;
pub mod replies;
pub mod row;
pub mod settling;
pub mod standing;
mod tried;
pub mod tries;
pub mod works;
pub mod writes;

pub use call::{CallRow, CallStart, Ending};
pub use no_room::NoRoom;
pub use tried::{MOST_TRIES, Tried};

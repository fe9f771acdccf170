//! Sessions for database drivers. A session is what a driver keeps for one connection: its handles, and its cursors
//! over the rows of queries.
#![tactic(auto)]

mod copies;
mod cursor;
mod result_set;
mod session;

pub use copies::{copies_of, copies_of_done, copies_of_failure, copies_of_result};
pub use result_set::ResultSet;
pub use session::Session;

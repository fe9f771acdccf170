//! A database driver over SQLite. All wires of a fleet share one database, in memory or in a file, and the one
//! connection of the crate sqlite to it. A lock guards that.
//!
//! Each wire is a session of its own, with handles, with cursors over the rows of queries, and with at most one
//! transaction. From the begin of its transaction to the end a wire holds the database. Meanwhile calls of other wires
//! that need the database fail with SQLite's text `database is locked`.
//!
//! A failure has the text that SQLite has for it, as the crate sqlite writes it. Bad and Invalid are answered only if
//! they are planned, because a planned fault does nothing. The one exception is a Reset or a Shut that can't roll back,
//! which does nothing either.
//!
//! A call takes the memory for the failure `out of memory` before it acts. If SQLite or the driver lacks memory later,
//! the call is answered with that failure. So after the answer Memory nothing has been done.
#![tactic(auto)]

mod calls;
mod connection;
mod database;
mod failure;
mod fleet;
mod parameters;
mod planned_session;
mod rows;
mod statements;
mod values;
mod wire;

pub use fleet::SqliteFleet;
pub use wire::SqliteWire;

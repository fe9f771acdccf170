//! The driver calls that were made or are to come. What the entries of a journal so far left for them: live handles and
//! cursors, and what a tenure has open.
#![tactic(auto)]

mod asked;
mod left;
mod live;

pub use asked::{Asked, Outcome};
pub use left::Left;
pub use live::{
    Cursor, Handle, has_cursor, has_handle, no_cursor_of_tenure, serves_cursor, serves_handle,
};

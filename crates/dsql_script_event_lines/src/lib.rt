//! Decides whether a line of a report is the line of an event that a report may show. Also reads single places
//! of the line's array, and the owner and the move of a connection that they show.
#![tactic(auto)]

mod lines;
mod moves;
mod parts;
mod well_formed;

pub use lines::{is_line, is_too_long};
pub use moves::{owner_at, read_move};
pub use parts::{
    byte_at, copy_at, integer_at, items_at, natural_at, number_at, short_at, text_at, truth_at,
};
pub use well_formed::is_well_formed;

//! Reads the words that the program is called with, and writes a generated script of a given number of lines.
#![tactic(auto)]

mod count;
mod laws;
mod lines;
mod pieces;
mod words;
mod worked;

pub use count::count_of;
pub use laws::{worked_counts, worked_lines};
pub use pieces::{GenerateFault, generate};
pub use words::{Command, command_of};
pub use worked::worked_words;

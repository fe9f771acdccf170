//! Writes the words of reports and scripts, and values, parameters, cells and arguments as JSON.
#![tactic(auto)]

mod args;
mod caps;
mod dests;
mod parts;
mod values;

pub use args::write_statement;
pub use caps::{caps_names, write_caps};
pub use dests::dests_word;
pub use parts::{
    begin, begin_numbered, write_integer, write_natural, write_numbered, write_told, write_word,
};
pub use values::{write_cells, write_params, write_texts, write_values};

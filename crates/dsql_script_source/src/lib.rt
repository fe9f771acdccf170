//! Reads a script from a source, line by line as it is played, or the whole of it before it is raced. Says what
//! its lines ask for, how far it was read and why it stops.
#![tactic(auto)]

mod head;
mod laws;
mod line;
mod script;
mod stop;
mod whole;

pub use head::read_head;
pub use laws::{lines_read_so_far_come_first, lines_read_whole_come_first};
pub use line::line_as_played;
pub use script::ScriptReader;
pub use stop::Stop;
pub use whole::{ReadScript, read_script};

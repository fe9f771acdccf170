//! Scripts and reports as text. Reads the lines of a script, writes an event as a line of a report, and reads such a
//! line back. This crate passes on what a caller needs of the crates of its family.
//!
//! A caller reads a line of a report as an event, and writes the event as that line:
//!
//! ```
//! let line = "[\"enter\",1,7,\"exec db\",[\"SET a 1\"]]\n";
//! let event = read_event(alloc, line.trim_end().as_bytes())?;
//! let mut lines = Vec::new(alloc);
//! append_line(alloc, &event, &mut lines)?;
//! Ok(lines.as_slice() == line.as_bytes())
//! ```
#![tactic(auto)]

pub use dsql_script_event_reader::read_event;
pub use dsql_script_forms::{LineFault, What};
pub use dsql_script_reader::{Reader, ScriptLine};
pub use dsql_script_report::{append_line, event_line};

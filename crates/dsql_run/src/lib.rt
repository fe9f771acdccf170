//! Runs a script, from the script's bytes to the report's bytes. Plays the script line by line, or races its clients.
//! The program around it does what its words ask for, and reports the result by a note and a status.
//!
//! A caller plays a script of two lines over a fleet:
//!
//! ```
//! let script = "c1 exec db [\"SET a 1\"]\nc1 exec db [\"SET a 2\"]\n";
//! let mut input = SliceSource::new(script.as_bytes(), 4096, &[]);
//! let mut report = VecSink::new(alloc, 4096, Vec::new(alloc));
//! let played = play(alloc, &mut input, &mut report, fleet);
//! played.is_ok() && report.bytes().starts_with(b"[\"run\",1,[\"fast_exec\",")
//! ```
#![tactic(auto)]

mod carrying;
mod closing;
mod finishing;
mod generating;
mod playing;
mod program;
mod racing;
mod racing_lines;
mod showing;
mod summing;
mod taking_up;

pub use dsql_run_outcome::{Stop, tell};
pub use playing::play;
pub use program::sqlrun;
pub use racing::race_script;

//! Writes the report of a history to a sink. Also sums a run up in one line that may stand in place of its
//! report.
#![tactic(auto)]

mod line;
mod showing;
mod summary;
mod worked;

pub use line::summary_line;
pub use showing::{ShowFault, Shown, show};
pub use summary::{Summary, summary_of};
pub use worked::worked_summaries;

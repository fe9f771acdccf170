//! Reads which event a line of a report records, or why the line is refused. The laws say that an event's line
//! is read as this event, and that events with the same line are shown as the same.
#![tactic(auto)]

mod answers;
mod asked;
mod driver_calls;
mod ends;
mod events;
mod laws;
mod reader;
mod replies;
mod values;

pub use dsql_script_forms::LineFault;
pub use laws::{
    lines_tell_their_events, spelled_events_are_read_back, worked_event_lines, worked_refusals,
    worked_transaction_lines,
};
pub use reader::read_event;

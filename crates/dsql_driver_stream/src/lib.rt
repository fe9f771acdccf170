//! Lines out of a source, whole pieces into a sink, and the adapters to the streams and the clock of the
//! process.
#![tactic(auto)]

mod edge;
mod laws;
mod lines;
mod pieces;

pub use edge::{StdClock, StdSink, StdSource};
pub use laws::{
    ahead_are_pending_and_left, each_line_takes_a_byte, ended_lines_come_first,
    handed_out_in_order, lines_begin_with_the_first,
};
pub use lines::{LONGEST, LineReader, ReadFault};
pub use pieces::{Cut, write_whole};

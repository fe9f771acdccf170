//! Examples of runs that follow their scripts or stray from them, and of lines of scripts and reports with what
//! they are read as. The functions do nothing: their contracts are the examples.
#![tactic(auto)]

pub mod followed;
pub mod followed_calls;
mod generated;
pub mod pings;
pub mod strayed;
pub mod strayed_calls;
pub mod times;
pub mod tries;
mod worked_reports;
mod worked_scripts;
mod worked_transactions;

pub use generated::generated_lines_are_read;
pub use worked_reports::{
    worked_block, worked_call_lines, worked_end_lines, worked_level_lines, worked_refused_begins,
};
pub use worked_scripts::{
    worked_fault_lines, worked_label_lines, worked_limit_lines, worked_one_lines,
    worked_ping_lines, worked_race_lines, worked_script_lines, worked_start_lines,
    worked_step_lines, worked_tick_lines,
};
pub use worked_transactions::{worked_begin_lines, worked_transaction_lines};

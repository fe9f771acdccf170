//! Laws of reports and scripts together. A script reads the arguments, capabilities, calls, limits and moments
//! that a report shows as the same ones. The crate also has the lines of worked events. Each law is the
//! contract of a function that does nothing.
#![tactic(auto)]

mod worked_reports;

ghost use Rattle.dsql_script_read_back.specs.ReadBack.{ReadsArgumentsBack, ReadsCallsBack, ReadsCapsBack, ReadsLimitsBack, ReadsMomentsBack};

pub use worked_reports::{
    worked_argument_lines, worked_pool_lines, worked_row_lines, worked_rows_lines,
};

/// The array that a report shows for a call is read in a script as the call's text and arguments. Each argument
/// has the same form, name and content.
pub fn spelled_arguments_are_read_back()
    ensures { ReadsArgumentsBack }
{}

/// The names that a report shows for a driver's capabilities are read in a `caps` line as exactly these
/// capabilities.
pub fn spelled_capabilities_are_read_back()
    ensures { ReadsCapsBack }
{}

/// The words that a report shows for a call, after the word for a client, are read as exactly this call. Its target,
/// its labels, its destinations, and a begin's level and `ro` are read back with it. The array after them must be read
/// as the call's. Earlier lines must have made each label that the call names, for rows or for a transaction. They may
/// not have made the label that it makes. The call is held if `start` precedes the words, otherwise it isn't. So a line
/// of these words and the array that the report shows asks for this call.
pub fn spelled_calls_are_read_back()
    ensures { ReadsCallsBack }
{}

/// A line of the word and the number that a report shows for a limit sets exactly this limit.
pub fn spelled_limits_are_read_back()
    ensures { ReadsLimitsBack }
{}

/// A line of `tick` and the number that a report shows for a moment sets the clock to exactly this moment.
pub fn spelled_moments_are_read_back()
    ensures { ReadsMomentsBack }
{}

//! Reads scripts: what each line asks of the clients, the limits, the clock and the driver, and why a line is
//! refused.
#![tactic(auto)]

mod body;
mod head;
mod kind;
mod labels;
mod plan;
mod reader;
mod script;

pub use dsql_script_forms::{LineFault, What};
pub use reader::Reader;
pub use script::ScriptLine;

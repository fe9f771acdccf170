//! Defines the result of a run of a script, which is played or raced. It is a history that carries the script out, and
//! what the run wrote and asked of the driver. Also reports the end of a run by a note and a status.
#![tactic(auto)]

pub mod laws;
mod notes;
mod stop;

pub use dsql_driver_stream::write_whole;
pub use dsql_hall::{
    Clock, Control, Failed, Fleet, Gate, Halt, KeptLine, Line, Memory, Past, Player, Raced, Room,
    Sink, Source, Txt, Wires, carry_end, carry_line, needs_time, race, retire_all, set_limits,
};
pub use dsql_script_generator::{Command, GenerateFault, command_of, generate};
pub use dsql_script_reader::ScriptLine;
pub use dsql_script_show::{ShowFault, Shown, show, summary_line, summary_of};
pub use dsql_script_source::{
    ReadScript, ScriptReader, Stop, line_as_played, read_head, read_script,
};
pub use notes::{tell, tell_usage};
pub use stop::{stop_of_halt, stop_of_show};

//! Defines the work of a call, and the driver calls that it sends for that work on its connection.
#![tactic(auto)]

mod fault_word;
mod label;
mod work;

pub use dsql_course::{Course, Due, Got, Progress, Wish};
pub use dsql_driver::{
    Caps, Clock, DriverAnswer, DriverCall, Failed, Fleet, Gate, Input, Level, Planned, Sink,
    Source, Wire,
};
pub use dsql_rows::{Cause, RowsEnd, RowsFault, RowsOver, RowsTable};
pub use dsql_scan::{Cell, Cells, Dest, Dests, RowFault, ScanFault, scan_row};
pub use dsql_tenure_journal::{Entry, Owner, Permit};
pub use dsql_value::{
    Arg, ArgFault, Args, Columns, Items, Memory, Named, Param, Params, Txt, Value, Values,
    check_args,
};
pub use dsql_value_past::Past;
pub use fault_word::FaultWord;
pub use label::Label;
pub use work::Aim;

//! Defines the events of a history, and which histories are legal. A transaction keeps its connection from its
//! begin to its commit or rollback. Calls of different clients may be under way in it at once, and its end ends
//! its rows.
#![tactic(auto)]

mod event;
mod limits;
mod record;
mod reply;
mod work;

pub use dsql_history_work::{
    Aim, Arg, ArgFault, Args, Caps, Cause, Cell, Cells, Clock, Columns, Course, Dest, Dests,
    DriverAnswer, DriverCall, Due, Entry, Failed, FaultWord, Fleet, Gate, Got, Input, Items, Label,
    Level, Memory, Named, Owner, Param, Params, Past, Permit, Planned, Progress, RowFault, RowsEnd,
    RowsFault, RowsOver, RowsTable, ScanFault, Sink, Source, Txt, Value, Values, Wire, Wish,
    check_args, scan_row,
};
pub use dsql_pool::{AskFault, Asked, CloseCause, Conn, Fate, MOST_OPEN, Move, Place, Pool, Stats};
pub use dsql_tx::{TxEnd, Txs};
pub use dsql_wait::Request;
pub use event::{Control, Event, Op, Setting, Target};
pub use limits::MAX_EVENTS;
pub use record::{CallRecord, Flight, Stand, Try};
pub use reply::{DbEnd, Reply};
pub use work::{Scope, Task, Work};

//! Laws about the calls of lawful histories. They cover lent connections, the calls that ended rows, what is
//! sent and heard on lent connections, and bounds on owed moves. They also cover which calls have a settled
//! reply, what holds once the run has ended, and what the layer tidies up. Each law is the contract of a
//! function that does nothing.
#![tactic(auto)]

pub mod bounds;
pub mod chores;
pub mod ended;
pub mod lendings;
pub mod replies;
pub mod sendings;

pub use dsql_laws::{
    Aim, Args, AskFault, Asked, CallRecord, Caps, Conn, Control, DbEnd, Dest, Dests, DriverAnswer,
    DriverCall, Entry, Event, Fate, Fleet, Items, Label, Level, MAX_EVENTS, MOST_OPEN, Memory,
    Move, Op, Owner, Permit, Place, Planned, Pool, Reply, RowsFault, RowsTable, Scope, Stand,
    Target, Task, TxEnd, Txs, Txt, Wire, Wish, Work,
};

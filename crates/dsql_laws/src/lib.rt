//! Proves what holds of every lawful history, and that the rules are computed. Each law is the contract of a
//! function that does nothing.
#![tactic(auto)]

pub mod laws;

pub use dsql_history::{
    Aim, Args, AskFault, Asked, CallRecord, Caps, Conn, Control, DbEnd, Dest, Dests, DriverAnswer,
    DriverCall, Entry, Event, Fate, Fleet, Flight, Items, Label, Level, MAX_EVENTS, MOST_OPEN,
    Memory, Move, Op, Owner, Past, Permit, Place, Planned, Pool, Reply, Request, RowsFault,
    RowsTable, Scope, Setting, Stand, Target, Task, TxEnd, Txs, Txt, Wire, Wish, Work,
};

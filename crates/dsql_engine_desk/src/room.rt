//! The memory that a run takes before its first event.
ghost use Rattle.std.specs.Prelude.{◌≡◌};
ghost use Rattle.dsql_engine_calls.specs.Calls.{nobody};

use dsql_engine_calls::{CallRow, NoRoom, Tried};
use dsql_engine_lines::Lines;
use dsql_engine_pooling::EventLog;
use dsql_laws_calls::{CallRecord, Items, Txt, Work};
use std::alloc::Global;
use std::marker::Model;

/// The memory with which a run begins: for its first event, and for the rows of no connection and of no call.
#[derive(Drop)]
pub struct Room {
    pub(crate) alloc: Global,
    pub(crate) history: EventLog,
    pub(crate) lines: Lines,
    pub(crate) calls: Vec<CallRow>,
    pub(crate) sent: Vec<u32>,
}

impl Model for Room {
    ghost use Rattle.dsql_engine_desk.specs.Room.{IsEmpty};

    ghost Value = { Unit {0} };

    ghost view = { λ _. tt };

    ghost invariant = { λ r. IsEmpty r.history r.lines r.calls.items r.sent.items };
}

impl Room {
    /// Takes the memory with which a run begins. Fails with `NoRoom` if there is none.
    pub fn new(alloc: Global) -> Result<Room, NoRoom> {
        let mut history = EventLog::new(alloc);
        history.reserve(1)?;
        let mut calls = Vec::new(alloc);
        calls.push(nobody(alloc))?;
        let mut sent = Vec::new(alloc);
        sent.push(0)?;
        Ok(Room {
            alloc,
            history,
            lines: Lines::new(alloc)?,
            calls,
            sent,
        })
    }

    /// Returns the allocator from which the memory came.
    pub fn alloc(&self) -> Global {
        self.alloc
    }
}

// Returns the row of no call.
fn nobody(alloc: Global) -> CallRow
    ensures { result ≡ nobody }
{
    let call = CallRecord {
        client: 0,
        text: Txt::new(String::new(alloc)),
        params: Items::none(alloc),
        decided: None,
    };
    CallRow {
        call,
        work: Work::Look,
        tried: Tried::new(),
        ender: 0,
        tx_ender: 0,
    }
}

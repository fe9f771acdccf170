//! The desk, which holds the present state of a run: how it begins, and its memory.
ghost use Rattle.std.specs.Prelude.{◌≡◌, ◌≤◌, ◌∷◌, [], length, IfOk, OnOk};
ghost use Rattle.dsql_engine_desk.specs.Desk.{trimmed, past, Stands};
ghost use Rattle.dsql_laws_calls.specs.history.Rules.Settled.{Settled};
ghost use Rattle.dsql_laws_calls.specs.history.declared.event.Event.TheVariants.{Run};

use crate::room::Room;
use dsql_engine_calls::{CallRow, NoRoom};
use dsql_engine_lines::Lines;
use dsql_engine_pooling::EventLog;
use dsql_laws_calls::{Caps, DbEnd, Event, Pool, RowsTable, Txs};
use indexmap::IndexMap;
use std::alloc::Global;

/// The present state of a run, beside its history.
#[derive(Drop)]
pub struct Desk {
    /// All that happened. The oldest events may be trimmed.
    pub history: EventLog,
    pub caps: Caps,
    /// What closed the database, if something did.
    pub closed_by: Option<DbEnd>,
    pub ended: bool,
    /// The connections, the waiting requests, and the limits.
    pub pool: Pool,
    /// What was heard on connections since they were lent.
    pub lines: Lines,
    /// Each call, by its number. There is no call 0.
    pub calls: Vec<CallRow>,
    /// The calls without a reply.
    pub unfinished: Vec<u32>,
    /// The connection on which each call last sent something, by the call's number; 0 for none.
    pub sent: Vec<u32>,
    /// The call whose own step is under way; 0 for none.
    pub step: u32,
    /// The first call that hands out rows under each label.
    pub labels: IndexMap<String, u32>,
    /// The first call that begins a transaction under each label.
    pub tx_labels: IndexMap<String, u32>,
    /// The rows that were handed out, by the numbers of their queries.
    pub rows: RowsTable,
    /// The transactions, by the numbers of the calls that began them.
    pub txs: Txs,
    /// The number of further events for which there is memory.
    pub paid: usize,
}

#[tactic(auto, unfolding(crate::specs::Desk::Stands, dsql_history::specs::Legal::Allowed))]
impl Desk {
    /// Returns the desk of a run that begins. It takes no memory.
    pub fn start(room: Room, version: u8, caps: Caps) -> Desk
        requires { version ≡ 1 }
        ensures stands { Stands result }
        ensures past { past result ≡ Run version caps ∷ [] }
        ensures trimmed { trimmed result ≡ 0 }
        ensures settled { Settled (past result) }
    {
        let Room {
            alloc,
            history,
            lines,
            calls,
            sent,
        } = room;
        let mut history = history;
        history.note(Event::Run { version, caps });
        Desk {
            history,
            caps,
            closed_by: None,
            ended: false,
            pool: Pool::new(alloc),
            lines,
            calls,
            unfinished: Vec::new(alloc),
            sent,
            step: 0,
            labels: IndexMap::new(alloc),
            tx_labels: IndexMap::new(alloc),
            rows: RowsTable::new(alloc),
            txs: Txs::new(alloc),
            paid: 0,
        }
    }

    /// Trims the history: drops the events so far.
    pub fn trim(&mut self)
        requires stands { Stands self.old }
        requires few { length (past self.old) ≤ u32.MAX }
        ensures stands { Stands self.new }
        ensures past { past self.new ≡ past self.old }
        ensures trimmed { trimmed self.new ≡ length (past self.new) }
        ensures paid { self.new.paid ≡ self.old.paid }
    {
        self.history.trim();
    }

    /// Takes the memory for this many events. Fails with `NoRoom` if there is none.
    pub fn pay(&mut self, events: u32) -> Result<(), NoRoom>
        requires { Stands self.old }
        ensures stands { Stands self.new }
        ensures past { past self.new ≡ past self.old }
        ensures trimmed { trimmed self.new ≡ trimmed self.old }
        ensures paid { OnOk result (self.new.paid ≡ events) }
    {
        let count = events as usize;
        self.history.reserve(count)?;
        self.unfinished.reserve(count)?;
        self.sent.reserve(count)?;
        self.lines.reserve(count)?;
        self.calls.reserve(count)?;
        self.labels.reserve(count)?;
        self.tx_labels.reserve(count)?;
        self.rows.reserve(events)?;
        self.txs.reserve(events)?;
        self.pool.reserve(events)?;
        self.paid = count;
        Ok(())
    }
}

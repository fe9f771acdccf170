ghost use Rattle.std.specs.Prelude.{◌≡◌, ◌+◌, ◌<◌, ◌≤◌, ◌∷◌, ◌↔◌, [], IsTrue, OnOk, OnErr};
ghost use Rattle.dsql_tenure.specs.Beginnings.{IsBeginningOf};

use dsql_tenure::Judge;
use dsql_tenure_journal::{Entry, Permit};
use dsql_value::Memory;
use std::alloc::Global;
use std::marker::Model;

/// A connection's journal as its judge knows it, without the entries. Contracts see what they see of a judge:
/// the connection, the journal with the newest entry first, and for how many entries there is memory.
#[derive(Drop)]
pub(crate) struct JudgedJournal {
    conn: u32,
    judge: Judge,
}

impl Model for JudgedJournal {
    ghost use Rattle.std.specs.Prelude.{◌≡◌};
    ghost use Rattle.dsql_tenure.specs.Beginnings.{IsBeginningOf};
    ghost use Rattle.dsql_tenure.specs.Judged.{Judged};

    ghost Value = { Judged };

    ghost view = { λ j. j.judge };

    ghost invariant = { λ j. (j.judge.conn ≡ j.conn) × IsBeginningOf j.judge.conn j.judge.journal };
}

impl JudgedJournal {
    ghost use Rattle.dsql_tenure.specs.Judged.{MaySend};

    /// Returns the journal of a connection that has no entries yet.
    pub(crate) fn new(alloc: Global, conn: u32) -> JudgedJournal
        ensures conn { result.conn ≡ conn }
        ensures journal { result.journal ≡ [] }
    {
        JudgedJournal {
            conn,
            judge: Judge::new(alloc, conn),
        }
    }

    /// Returns whether the permit may be sent, so that each answer that fits its call at its place may follow.
    pub(crate) fn may_send(&self, permit: &Permit) -> bool
        ensures { IsTrue result ↔ MaySend self.now permit.now }
    {
        self.judge.may_send(permit)
    }

    /// Takes all the memory for one entry, unless there is enough.
    pub(crate) fn make_room(&mut self) -> Result<(), Memory>
        ensures room { OnOk result (0 < self.new.spare) }
        ensures full { OnErr result (self.old.spare ≡ 0) }
        ensures spare { self.old.spare ≤ self.new.spare }
        ensures journal { self.new.journal ≡ self.old.journal }
        ensures conn { self.new.conn ≡ self.old.conn }
    {
        self.judge.reserve(1)
    }

    /// Records an entry that may follow. The memory for it must have been taken.
    pub(crate) fn note(&mut self, entry: &Entry)
        requires follows { IsBeginningOf self.old.conn (entry.now ∷ self.old.journal) }
        requires room { 0 < self.old.spare }
        ensures spare { self.old.spare ≤ self.new.spare + 1 }
        ensures journal { self.new.journal ≡ entry.now ∷ self.old.journal }
        ensures conn { self.new.conn ≡ self.old.conn }
    {
        self.judge.hear(entry);
    }

    /// Returns the connection's number.
    pub(crate) fn number(&self) -> u32
        ensures number { result ≡ self.now.conn }
        ensures beginning { IsBeginningOf self.now.conn self.now.journal }
    {
        self.conn
    }
}

ghost use Rattle.std.specs.Prelude.{◌≡◌, ◌+◌, ◌<◌, ◌≤◌, ◌∷◌, ◌↔◌, [], IsTrue, OnOk, OnErr, IfErr};
ghost use Rattle.dsql_tenure_journal.specs.Journal.{is_whole};
ghost use Rattle.dsql_tenure.specs.Beginnings.{IsBeginningOf};

use crate::fault::{JudgeFault, Phase};
use crate::tables::Tables;
use dsql_tenure_journal::{Entry, Permit};
use dsql_value::Memory;
use std::alloc::Global;
use std::marker::Model;

/// The judge of one connection's journal.
///
/// Contracts see its connection, the journal so far, the newest entry first, and for how many entries it has
/// memory.
#[derive(Drop)]
pub struct Judge {
    tables: Tables,
}

impl Model for Judge {
    ghost use Rattle.dsql_tenure.specs.Judged.{Judged};

    ghost Value = { Judged };

    ghost use Rattle.dsql_tenure.specs.Tables.{past, Stands};

    ghost view = { λ judge. record {
      conn = judge.tables.conn;
      journal = past judge.tables;
      spare = judge.tables.room;
    } };

    ghost invariant = { λ judge. Stands judge.tables };
}

impl Judge {
    ghost use Rattle.dsql_tenure.specs.Judged.{Refuses, MaySend, kept};

    /// Returns the judge of a connection without entries. Takes no memory.
    pub fn new(alloc: Global, conn: u32) -> Judge
        ensures conn { result.conn ≡ conn }
        ensures journal { result.journal ≡ [] }
    {
        Judge {
            tables: Tables::new(alloc, conn),
        }
    }

    /// Hears the entry that comes next, if the journal stays a beginning of a whole one. Otherwise nothing
    /// changes.
    pub fn next(&mut self, entry: &Entry) -> Result<(), JudgeFault>
        ensures ok { OnOk result (self.new.journal ≡ entry.now ∷ self.old.journal) }
        ensures refused { IfErr result (Refuses self.old entry.now) }
        ensures err { OnErr result (self.new.journal ≡ self.old.journal) }
        ensures conn { self.new.conn ≡ self.old.conn }
        ensures spare { self.old.spare ≤ self.new.spare + 1 }
        ensures beginning { IsBeginningOf self.new.conn self.new.journal }
    {
        if !self.tables.accepts(entry) {
            return Err(JudgeFault::Stray {
                phase: self.tables.phase(),
                tenure: self.tables.tenure,
            });
        }
        if let Err(Memory) = self.tables.reserve(1) {
            return Err(JudgeFault::Memory);
        }
        self.hear(entry);
        Ok(())
    }

    /// Records the entry that comes next, and decides nothing. The entry must keep the journal a beginning of a
    /// whole one, and there must be room for it.
    pub fn hear(&mut self, entry: &Entry)
        requires follows { IsBeginningOf self.old.conn (entry.now ∷ self.old.journal) }
        requires room { 0 < self.old.spare }
        ensures journal { self.new.journal ≡ entry.now ∷ self.old.journal }
        ensures conn { self.new.conn ≡ self.old.conn }
        ensures spare { self.old.spare ≤ self.new.spare + 1 }
        ensures beginning { IsBeginningOf self.new.conn self.new.journal }
    {
        self.tables.hear(entry);
    }

    /// Returns whether the judge would accept each answer that fits the permit's call at its place.
    pub fn may_send(&self, permit: &Permit) -> bool
        ensures { IsTrue result ↔ MaySend self.now permit.now }
    {
        self.tables.may_send(permit)
    }

    /// Returns whether the journal is whole.
    pub fn may_stop(&self) -> bool
        ensures { result ≡ is_whole self.now.journal }
    {
        self.tables.refused || self.tables.shut
    }

    /// Takes memory for this many more entries, unless there is enough. If it returns `Ok`, the judge has room for
    /// them.
    pub fn reserve(&mut self, calls: u32) -> Result<(), Memory>
        ensures ok { OnOk result (calls ≤ self.new.spare) }
        ensures full { OnErr result (self.old.spare < calls) }
        ensures journal { self.new.journal ≡ self.old.journal }
        ensures conn { self.new.conn ≡ self.old.conn }
        ensures spare { self.old.spare ≤ self.new.spare }
    {
        self.tables.reserve(calls)
    }

    /// Returns how many handles and cursors are live, plus how many transactions were begun.
    pub fn held(&self) -> u64
        ensures { result ≡ kept self.now.journal }
    {
        self.tables.held()
    }
}

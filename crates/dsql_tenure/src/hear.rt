//! Hearing an entry, and room for it.
ghost use Rattle.std.specs.Prelude.{◌≡◌, ℕ, ◌+◌, ◌^◌, ◌<◌, ◌≤◌, ◌∷◌, ◌&&◌, ◌||◌, ◌==◌, true, false, length, nat_eq, Option, OnOk, OnErr, if◌then◌else◌};
ghost use Rattle.dsql_driver.specs.Fits as fit;
ghost use Rattle.dsql_driver.specs.Kinds as kind;
ghost use Rattle.dsql_tenure_journal.specs.Readers.{last_tenure, handles, cursors, begun, begins as begins_entry};
ghost use Rattle.dsql_tenure.specs.Beginnings.{is_beginning_of};
ghost use Rattle.dsql_tenure.specs.Flags.{bad_with};
ghost use Rattle.indexmap.specs.IndexSet.{contains, spare, index_set_len};

use crate::heard::{begins, hear_cursors, hear_handles, hear_open};
use crate::tables::Tables;
use dsql_tenure_asked::{Cursor, Handle};
use dsql_tenure_journal::Entry;
use dsql_value::Memory;
use indexmap::IndexSet;

#[tactic(auto, unfolding(crate::specs::Tables::Stands))]
impl Tables {
    ghost use Rattle.dsql_tenure.specs.Tables.{past, Stands};

    /// Hears one more entry, which may follow.
    pub fn hear(&mut self, entry: &Entry)
        requires stands { Stands self.old }
        requires follows { is_beginning_of self.old.conn (entry.now ∷ past self.old) ≡ true }
        requires room { 0 < self.old.room }
        ensures stands { Stands self.new }
        ensures past { past self.new ≡ entry.now ∷ past self.old }
        ensures conn { self.new.conn ≡ self.old.conn }
        ensures room { self.new.room + 1 ≡ self.old.room }
    {
        let so_far = self.so_far_of(entry.tenure).then(entry);
        hear_handles(&mut self.handles, entry);
        hear_cursors(&mut self.cursors, entry);
        hear_open(&mut self.unended, entry);
        hear_begun(&mut self.begun, entry);
        self.so_far = so_far;
        self.tenure = entry.tenure;
        self.refused = was_refused(entry) | self.refused;
        self.shut = entry.call.is_shut() | self.shut;
        self.invalid = entry.answer.is_invalid() | self.invalid;
        self.bad_tenure = bad_with(self.bad_tenure, entry);
        self.room -= 1;
        let past = self.past.then(entry);
        self.past = past;
    }

    /// Takes memory for this many more entries, unless there is enough.
    pub fn reserve(&mut self, entries: u32) -> Result<(), Memory>
        requires { Stands self.old }
        ensures stands { Stands self.new }
        ensures past { past self.new ≡ past self.old }
        ensures conn { self.new.conn ≡ self.old.conn }
        ensures ok { OnOk result (entries ≤ self.new.room) }
        ensures room { self.old.room ≤ self.new.room }
        ensures enough { entries ≤ self.old.room → OnOk result (self.new.room ≡ self.old.room) }
        ensures full { OnErr result (self.old.room < entries) }
        ensures err { OnErr result (self.new.room ≡ self.old.room) }
    {
        if entries <= self.room {
            return Ok(());
        }
        self.handles.reserve(entries as usize)?;
        self.cursors.reserve(entries as usize)?;
        self.unended.reserve(entries as usize)?;
        self.begun.reserve(entries as usize)?;
        self.room = entries;
        Ok(())
    }

    /// Returns how many handles and cursors are live, plus how many transactions were begun.
    pub fn held(&self) -> u64
        requires { Stands self.now }
        ensures { result ≡ length (handles (past self.now)) + length (cursors (past self.now)) + length
            (begun (past self.now)) }
    {
        count_live(&self.handles, &self.cursors) + self.begun.len() as u64
    }
}

/// Returns whether the entry is a Connect answered Bad or Fail.
fn was_refused(entry: &Entry) -> bool
    ensures { result ≡ (kind.is_connect entry.now.call && fit.is_failure entry.now.answer) }
{
    entry.call.is_connect() && entry.answer.is_failure()
}

/// Returns the tenure of the first Bad answer, with one entry more.
fn bad_with(first: Option<u32>, entry: &Entry) -> Option<u32>
    ensures { result ≡ bad_with first entry.now }
{
    match first {
        Some(tenure) => Some(tenure),
        None if entry.answer.is_bad() => Some(entry.tenure),
        None => None,
    }
}

/// Records a transaction that was begun.
fn hear_begun(numbers: &mut IndexSet<u32>, entry: &Entry)
    requires room { 0 < spare numbers.old }
    requires new { begins_entry entry.now ≡ true → contains nat_eq numbers.old entry.now.tx ≡ false }
    ensures numbers { (n : ℕ) → contains nat_eq numbers.new n
        ≡ (if begins_entry entry.now then ((entry.now.tx == n)
        || contains nat_eq numbers.old n) else contains nat_eq numbers.old n) }
    ensures count { index_set_len numbers.new
        ≡ (if begins_entry entry.now then index_set_len numbers.old + 1 else index_set_len numbers.old) }
    ensures room { spare numbers.old ≤ spare numbers.new + 1 }
{
    if begins(entry) {
        let _ = numbers.insert(entry.tx);
    }
}

/// Returns how many handles and cursors there are. Each takes several bytes, so there are fewer than 2^62 of
/// each.
fn count_live(handles: &[Handle], cursors: &[Cursor]) -> u64
    ensures sum { result ≡ length handles.now + length cursors.now }
    ensures small { result < 2 ^ 63 }
{
    handles.len() as u64 + cursors.len() as u64
}

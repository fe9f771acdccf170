//! What takes a transaction back. While one is open, its session notes each key's value before it writes to that key.
ghost use Rattle.std.specs.Prelude.{◌≡◌, ◌∷◌, ◌++◌, [], OnOk, OnErr};
ghost use Rattle.dsql_mem_store.specs.Entries.{value_at, with_state};

use crate::failures::{IN_TRANSACTION, NO_TRANSACTION};
use dsql_driver::Answered;
use dsql_driver_session::{copies_of_done, copies_of_failure};
use dsql_mem_store::{Note, Store};
use dsql_value::{Memory, Txt, Value};
use std::alloc::Global;
use std::marker::Model;

/// The notes of a session's open transaction, if one is open.
#[derive(Drop)]
pub struct Undo {
    notes: Option<Vec<Note>>,
}

impl Model for Undo {
    ghost use Rattle.std.specs.Prelude.{List, Option, option_map, reverse};
    ghost use Rattle.dsql_mem_store.specs.declared.note.Note.{Note};

    ghost Value = { Option (List Note) };

    ghost view = { λ u. option_map (λ notes. reverse notes.items) u.notes };
}

impl Undo {
    ghost use Rattle.std.specs.Prelude.{IfOk, None, is_some, option_map, reverse};
    ghost use Rattle.dsql_driver_session.specs.Copies.{copies_of};
    ghost use Rattle.dsql_mem_session.specs.Calls.{begun, committed};
    ghost use Rattle.dsql_mem_session.specs.Session.{noted};

    /// Returns the notes of a session in which no transaction is open.
    pub(crate) fn none() -> Undo
        ensures { result ≡ None }
    {
        Undo { notes: None }
    }

    /// Returns true if a transaction is open.
    pub fn is_open(&self) -> bool
        ensures { result ≡ is_some self.now }
    {
        self.notes.is_some()
    }

    /// Returns the notes of the open transaction, oldest first, or `None` if none is open.
    pub fn notes(&self) -> Option<&[Note]>
        ensures { option_map (λ notes. reverse notes.now) result ≡ self.now }
    {
        match &self.notes {
            Some(notes) => Some(notes.as_slice()),
            None => None,
        }
    }

    /// Begins a transaction.
    pub fn begin(&mut self, alloc: Global) -> Result<Answered, Memory>
        ensures answer { IfOk result (λ answered. answered ≡ copies_of (begun self.old).1) }
        ensures undo { OnOk result (self.new ≡ (begun self.old).0) }
        ensures stays { OnErr result (self.new ≡ self.old) }
    {
        if self.is_open() {
            return copies_of_failure(alloc, IN_TRANSACTION);
        }
        self.notes = Some(Vec::new(alloc));
        Ok(copies_of_done())
    }

    /// Ends a transaction and leaves what it wrote.
    pub fn commit(&mut self, alloc: Global) -> Result<Answered, Memory>
        ensures answer { IfOk result (λ answered. answered ≡ copies_of (committed self.old).1) }
        ensures undo { OnOk result (self.new ≡ (committed self.old).0) }
        ensures stays { OnErr result (self.new ≡ self.old) }
    {
        if !self.is_open() {
            return copies_of_failure(alloc, NO_TRANSACTION);
        }
        self.forget();
        Ok(copies_of_done())
    }

    /// Ends a transaction, if one is open, and drops its notes.
    pub fn forget(&mut self)
        ensures { self.new ≡ None }
    {
        self.notes = None;
    }

    /// Writes to a store. If a transaction is open, it notes what the key was.
    pub fn write(
        &mut self,
        alloc: Global,
        store: &mut Store,
        key: &Txt,
        value: Option<Value>,
    ) -> Result<(), Memory>
        ensures store { OnOk result (store.new ≡ with_state key.now value store.old) }
        ensures undo { OnOk result (self.new
            ≡ noted (record { key = key.now; value = value_at key.now store.old }) self.old) }
        ensures store_stays { OnErr result (store.new ≡ store.old) }
        ensures undo_stays { OnErr result (self.new ≡ self.old) }
    {
        match &mut self.notes {
            Some(notes) => write_noted(alloc, notes, store, key, value),
            None => store.write(alloc, key.as_str(), value),
        }
    }
}

/// Writes to a store and notes what the key was. It reserves the room for the note first.
fn write_noted(
    alloc: Global,
    notes: &mut Vec<Note>,
    store: &mut Store,
    key: &Txt,
    value: Option<Value>,
) -> Result<(), Memory>
    ensures store { OnOk result (store.new ≡ with_state key.now value store.old) }
    ensures notes { OnOk result (notes.new.items ≡ notes.old.items
        ++ record { key = key.now; value = value_at key.now store.old } ∷ []) }
    ensures store_stays { OnErr result (store.new ≡ store.old) }
    ensures notes_stay { OnErr result (notes.new.items ≡ notes.old.items) }
{
    notes.reserve(1)?;
    let note = store.note(key)?;
    store.write(alloc, key.as_str(), value)?;
    notes.push_reserved(note);
    Ok(())
}

ghost use Rattle.std.specs.Prelude.{◌≡◌, nat_eq, [], reverse, IfOk, OnOk, OnErr};
ghost use Rattle.std.specs.List.{starts_with};
ghost use Rattle.std.specs.Option.{option_copied};
ghost use Rattle.dsql_mem_store.specs.Entries.{value_at, entry_at, listed, with_value, without_key, with_state, AreAscending};
ghost use Rattle.dsql_mem_store.specs.Undo.{rolled_back};

use crate::note::Note;
use dsql_value::{Items, Memory, Txt, Value};
use std::alloc::Global;
use std::collections::BTreeMap;
use std::marker::Model;

/// A key with its value.
pub type Entry = (Txt, Value);

/// A map of texts to their values. Contracts see it as a list in the byte order of the texts.
#[derive(Drop)]
pub struct Store {
    values: BTreeMap<String, Value>,
}

impl Model for Store {
    ghost use Rattle.std.specs.Prelude.{map, string_bytes};
    ghost use Rattle.dsql_mem_store.specs.Entries.{Entries};

    ghost Value = { Entries };

    ghost view = { λ s. map (λ e. (string_bytes e.0, e.1)) s.values.entries };
}

impl Store {
    /// Returns an empty store.
    pub fn new(alloc: Global) -> Store
        ensures { result ≡ [] }
    {
        Store {
            values: BTreeMap::new(alloc),
        }
    }

    /// Does nothing. Its contract lets a caller know that the keys ascend.
    pub fn vouch(&self)
        ensures { AreAscending self.now }
    {
        let _count = self.values.len();
    }

    /// Returns the value of a key, if it has one.
    pub fn get(&self, key: &str) -> Option<&Value>
        ensures { option_copied result ≡ value_at key.now self.now }
    {
        self.values.get(key)
    }

    /// Returns a copy of the entry of a key, or no entry if the key has no value.
    pub fn entry(&self, alloc: Global, key: &str) -> Result<Items<Entry>, Memory>
        ensures { IfOk result (λ entries. entries ≡ entry_at key.now self.now) }
    {
        match self.get(key) {
            Some(value) => {
                let entry = (Txt::copy_of(alloc, key)?, value.clone()?);
                Ok(Items::new(vec![in alloc; entry]?))
            }
            None => Ok(Items::none(alloc)),
        }
    }

    /// Returns a copy of the entries whose keys begin with a prefix, in the byte order of the keys. It looks at no
    /// entries but these and the next one.
    pub fn list(&self, alloc: Global, prefix: &str) -> Result<Items<Entry>, Memory>
        ensures { IfOk result (λ entries. entries ≡ listed prefix.now self.now) }
    {
        let from = String::from_str(alloc, prefix)?;
        let mut entries = Vec::new(alloc);
        for (key, value) in self.values.range(from..) {
            if begins_with(key.as_str(), prefix) {
                entries.push((Txt::copy_of(alloc, key.as_str())?, value.clone()?))?;
            } else {
                break;
            }
        }
        Ok(Items::new(entries))
    }

    /// Returns a copy of the value of a key, if it has one.
    fn value(&self, key: &str) -> Result<Option<Value>, Memory>
        ensures { IfOk result (λ value. value ≡ value_at key.now self.now) }
    {
        match self.get(key) {
            Some(value) => Ok(Some(value.clone()?)),
            None => Ok(None),
        }
    }

    /// Returns a note of a key and its present value, taken before the key is written.
    pub fn note(&self, key: &Txt) -> Result<Note, Memory>
        ensures { IfOk result (λ note. note ≡ record { key = key.now; value = value_at key.now self.now }) }
    {
        Ok(Note {
            key: key.copy()?,
            value: self.value(key.as_str())?,
        })
    }

    /// Sets the key to this value, or removes the key if there is none. If that fails, the store stays as it
    /// was.
    pub fn write(&mut self, alloc: Global, key: &str, value: Option<Value>) -> Result<(), Memory>
        ensures ok { OnOk result (self.new ≡ with_state key.now value self.old) }
        ensures err { OnErr result (self.new ≡ self.old) }
    {
        match value {
            Some(value) => self.set(alloc, key, value),
            None => {
                self.remove(key);
                Ok(())
            }
        }
    }

    /// Sets the key to this value. If that fails, the store stays as it was.
    fn set(&mut self, alloc: Global, key: &str, value: Value) -> Result<(), Memory>
        ensures ok { OnOk result (self.new ≡ with_value key.now value self.old) }
        ensures err { OnErr result (self.new ≡ self.old) }
    {
        let key = String::from_str(alloc, key)?;
        self.values.insert(key, value)?;
        Ok(())
    }

    /// Removes the key, if it is there.
    fn remove(&mut self, key: &str)
        ensures { self.new ≡ without_key key.now self.old }
    {
        self.values.remove(key);
    }

    /// Returns the store as it was before the writes that the notes record, the oldest note first. It is a
    /// copy, so that `self` stays as it is if memory runs out.
    pub fn before(&self, alloc: Global, notes: &[Note]) -> Result<Store, Memory>
        ensures { IfOk result (λ store. store ≡ rolled_back (reverse notes.now) self.now) }
    {
        let mut restored = self.copy()?;
        let mut left = notes;
        while let Some((newest, older)) = left.split_last() {
            let value = newest.value.clone()?;
            restored.write(alloc, newest.key.as_str(), value)?;
            left = older;
        }
        Ok(restored)
    }

    /// Returns another store with the same entries.
    fn copy(&self) -> Result<Store, Memory>
        ensures { IfOk result (λ store. store ≡ self.now) }
    {
        let values = self.values.clone()?;
        Ok(Store { values })
    }
}

/// Returns whether a text begins with a prefix.
fn begins_with(text: &str, prefix: &str) -> bool
    ensures { result ≡ starts_with nat_eq text.now prefix.now }
{
    text.starts_with(prefix)
}

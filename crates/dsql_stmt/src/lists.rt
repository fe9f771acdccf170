//! Lists that are allocated before they are needed.
ghost use Rattle.std.specs.Prelude.{◌≡◌, ◌-◌, ◌<◌, ◌≤◌, [], OnOk, vec_len, vec_capacity};
ghost use Rattle.dsql_stmt.specs.Lists.{AreEmptyOf};

use dsql_value::Memory;
use std::alloc::Global;
use std::marker::Model;

/// A list of connections and handles.
pub type Pairs = Vec<(u32, u32)>;

/// Empty lists that were allocated beforehand. Contracts see how many there are, and how many pairs each has
/// room for.
#[derive(Drop)]
pub struct Lists {
    alloc: Global,
    lists: Vec<Pairs>,
    size: usize,
}

impl Model for Lists {
    ghost use Rattle.std.specs.Prelude.{vec_len};
    ghost use Rattle.dsql_stmt.specs.Lists.{Ready, AreEmptyOf};

    ghost Value = { Ready };

    ghost view = { λ l. record { count = vec_len l.lists; size = l.size } };

    ghost invariant = { λ l. AreEmptyOf l.size l.lists.items };
}

impl Lists {
    /// Returns no lists. It takes no memory.
    pub fn new(alloc: Global) -> Lists
        ensures count { result.count ≡ 0 }
        ensures size { result.size ≡ 0 }
    {
        Lists {
            alloc,
            lists: Vec::new(alloc),
            size: 0,
        }
    }

    /// Returns an empty list: one that was allocated beforehand, if one is left.
    pub fn take(&mut self) -> Pairs
        ensures empty { result.items ≡ [] }
        ensures size { 0 < self.old.count → self.old.size ≤ vec_capacity result }
        ensures left { self.new.count ≡ self.old.count - 1 }
        ensures same { self.new.size ≡ self.old.size }
    {
        match self.lists.pop() {
            Some(list) => list,
            None => Vec::new(self.alloc),
        }
    }

    /// Takes memory for at least this many lists, each with room for at least this many pairs.
    pub fn reserve(&mut self, count: usize, size: usize) -> Result<(), Memory>
        ensures count { OnOk result (count ≤ self.new.count) }
        ensures size { OnOk result (size ≤ self.new.size) }
        ensures count_stays { self.old.count ≤ self.new.count }
        ensures size_stays { self.old.size ≤ self.new.size }
    {
        if self.size < size {
            let larger = size.max(self.size.saturating_mul(2));
            let mut lists = Vec::new(self.alloc);
            fill(self.alloc, &mut lists, self.lists.len(), larger)?;
            self.lists = lists;
            self.size = larger;
        }
        fill(self.alloc, &mut self.lists, count, self.size)
    }
}

/// Adds empty lists with room for `size` pairs, until there are `count` lists.
fn fill(alloc: Global, lists: &mut Vec<Pairs>, count: usize, size: usize) -> Result<(), Memory>
    requires { AreEmptyOf size lists.old.items }
    ensures empty { AreEmptyOf size lists.new.items }
    ensures count { OnOk result (count ≤ vec_len lists.new) }
    ensures stay { vec_len lists.old ≤ vec_len lists.new }
{
    for _ in lists.len()..count {
        lists.push(Vec::with_capacity(alloc, size)?)?;
    }
    Ok(())
}

ghost use Rattle.std.specs.Prelude.{◌≡◌, ◌+◌, ◌≤◌, [], ◌∷◌, ◌++◌, length, Some, true, false, OnOk, OnErr, IfErr, IfSome};
ghost use Rattle.std.specs.Option.{option_copied, option_map};

use crate::end::RowsEnd;
use crate::fault::{RowsClosed, RowsFault};
use crate::rows::Rows;
use dsql_scan::{Cells, Dest};
use dsql_value::{Columns, Memory, Values};
use indexmap::IndexMap;
use std::alloc::Global;
use std::marker::Model;

/// The rows that were made. Contracts see them by their numbers in the order in which they were made, and for
/// how many more calls there is memory.
#[derive(Drop)]
pub struct RowsTable {
    alloc: Global,
    rows: IndexMap<u32, Rows>,
}

impl Model for RowsTable {
    ghost use Rattle.indexmap.specs.IndexMap.{spare};
    ghost use Rattle.dsql_rows.specs.OpenRows.{OpenRows};

    ghost Value = { OpenRows };

    ghost view = { λ t. record { rows = t.rows.entries; spare = spare t.rows } };
}

impl RowsTable {
    ghost use Rattle.dsql_value_numbered.specs.Numbered.{changed, all_changed};
    ghost use Rattle.dsql_rows.specs.OpenRows.{rows_of, was_made, fresh, is_live, shown, ended_by, told_by, IsClosedBy, IsScan};
    ghost use Rattle.dsql_rows.specs.declared.end.RowsEnd.TheVariants.{EndOfRun};

    /// Returns a table without rows. It takes no memory.
    pub fn new(alloc: Global) -> RowsTable
        ensures { result.rows ≡ [] }
    {
        RowsTable {
            alloc,
            rows: IndexMap::new(alloc),
        }
    }

    /// Takes memory for so many more calls.
    pub fn reserve(&mut self, calls: u32) -> Result<(), Memory>
        ensures ok { OnOk result (calls ≤ self.new.spare) }
        ensures rows { self.new.rows ≡ self.old.rows }
        ensures spare { self.old.spare ≤ self.new.spare }
    {
        self.rows.reserve(calls as usize)?;
        Ok(())
    }

    /// Returns how many rows were made.
    pub fn held(&self) -> u64
        ensures { result ≡ length self.now.rows }
    {
        self.rows.len() as u64
    }

    /// Returns whether rows were made under this number.
    pub fn was_made(&self, n: u32) -> bool
        ensures { result ≡ was_made n self.now.rows }
    {
        self.rows.contains_key(&n)
    }

    /// Makes rows over a cursor under a new number. Fails only if no memory was reserved.
    pub fn begin_rows(&mut self, n: u32, cursor: u32, columns: Columns) -> Result<(), Memory>
        requires { was_made n self.old.rows ≡ false }
        ensures ok { OnOk result (self.new.rows ≡ self.old.rows ++ (n, fresh cursor columns) ∷ []) }
        ensures full { OnErr result (self.old.spare ≡ 0) }
        ensures err { OnErr result (self.new.rows ≡ self.old.rows) }
        ensures spare { self.old.spare ≤ self.new.spare + 1 }
    {
        let rows = Rows {
            cursor,
            columns,
            current: None,
            ended: None,
        };
        self.rows.insert(n, rows)?;
        Ok(())
    }

    /// Makes the values the current row. Fails with `RowsClosed` if the rows have ended. Neither this nor
    /// `close` takes memory.
    pub fn row(&mut self, n: u32, values: Values) -> Result<(), RowsClosed>
        requires { was_made n self.old.rows ≡ true }
        ensures ok { OnOk result (self.new.rows ≡ changed (shown values) n self.old.rows) }
        ensures live { OnOk result (option_map is_live (rows_of n self.old.rows) ≡ Some true) }
        ensures closed { IfErr result (λ closed. IfSome (rows_of n self.old.rows) (λ rows. IsClosedBy rows closed)) }
        ensures err { OnErr result (self.new.rows ≡ self.old.rows) }
        ensures spare { self.new.spare ≡ self.old.spare }
    {
        match self.rows.get_mut(&n) {
            Some(rows) => rows.show(values),
            None => unreachable!(),
        }
    }

    /// Returns the current row as cells of the destinations, as Go's `Rows.Scan` does. The row stays current.
    /// It takes memory for the cells, which `reserve` doesn't provide.
    pub fn scan(&self, n: u32, dests: &[Dest]) -> Result<Cells, RowsFault>
        requires { was_made n self.now.rows ≡ true }
        ensures { IfSome (rows_of n self.now.rows) (λ rows. IsScan result rows dests.now) }
    {
        self.rows(n).scan(self.alloc, dests)
    }

    /// Ends the rows unless they have ended, and returns whether they were live. The first end is kept.
    pub fn close(&mut self, n: u32, by: RowsEnd) -> bool
        requires { was_made n self.old.rows ≡ true }
        ensures live { Some result ≡ option_map is_live (rows_of n self.old.rows) }
        ensures rows { self.new.rows ≡ changed (ended_by by) n self.old.rows }
        ensures spare { self.new.spare ≡ self.old.spare }
    {
        match self.rows.get_mut(&n) {
            Some(rows) => rows.close(by),
            None => unreachable!(),
        }
    }

    /// Ends all live rows with the end of the run. It takes no memory.
    pub fn close_all(&mut self)
        ensures rows { self.new.rows ≡ all_changed (ended_by EndOfRun) self.old.rows }
        ensures spare { self.new.spare ≡ self.old.spare }
    {
        for index in 0..self.rows.len() {
            self.rows[index].close(RowsEnd::EndOfRun);
        }
    }

    /// Returns whether nothing has ended the rows.
    pub fn is_live(&self, n: u32) -> bool
        requires { was_made n self.now.rows ≡ true }
        ensures { Some result ≡ option_map is_live (rows_of n self.now.rows) }
    {
        self.rows(n).ended.is_none()
    }

    /// Returns what ended the rows, or `None` if they are live.
    pub fn ended(&self, n: u32) -> Option<&RowsEnd>
        requires { was_made n self.now.rows ≡ true }
        ensures { Some (option_copied result) ≡ option_map (λ rows. rows.ended) (rows_of n self.now.rows) }
    {
        self.rows(n).ended.as_ref()
    }

    /// Returns what ended the rows if Go's `Rows.Err` reports it as an error, and `None` otherwise.
    pub fn err(&self, n: u32) -> Option<&RowsEnd>
        requires { was_made n self.now.rows ≡ true }
        ensures { Some (option_copied result) ≡ option_map told_by (rows_of n self.now.rows) }
    {
        self.rows(n).err()
    }

    /// Returns the cursor of the rows.
    pub fn cursor(&self, n: u32) -> u32
        requires { was_made n self.now.rows ≡ true }
        ensures { Some result ≡ option_map (λ rows. rows.cursor) (rows_of n self.now.rows) }
    {
        self.rows(n).cursor
    }

    /// Returns the names of the rows' columns, in order.
    pub fn columns(&self, n: u32) -> &Columns
        requires { was_made n self.now.rows ≡ true }
        ensures { Some result.now ≡ option_map (λ rows. rows.columns) (rows_of n self.now.rows) }
    {
        &self.rows(n).columns
    }

    fn rows(&self, n: u32) -> &Rows
        requires { was_made n self.now.rows ≡ true }
        ensures { Some result.now ≡ rows_of n self.now.rows }
    {
        self.rows.get(&n).unwrap()
    }
}

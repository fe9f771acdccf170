ghost use Rattle.std.specs.Prelude.{◌≡◌, map, IfOk};
ghost use Rattle.dsql_mem_session.specs.Shape.{columns_of, row_of, result_set};

use dsql_driver_session::ResultSet;
use dsql_mem_store::Entry;
use dsql_value::{Columns, Items, Memory, Txt, Value, Values};
use std::alloc::Global;

/// What a query's rows show of the entries that it found.
#[derive(Clone, Copy)]
pub(crate) enum Shape {
    Values,
    Entries,
}

impl Shape {
    /// Returns the answer to a query that found these entries.
    pub(crate) fn result_set(
        self,
        alloc: Global,
        entries: &Items<Entry>,
    ) -> Result<ResultSet, Memory>
        ensures { IfOk result (λ set. set ≡ result_set self entries.now) }
    {
        let columns = self.columns(alloc)?;
        let rows = self.rows(alloc, entries.as_slice())?;
        Ok(ResultSet::of(columns, rows))
    }

    /// Returns the names of the columns.
    fn columns(self, alloc: Global) -> Result<Columns, Memory>
        ensures { IfOk result (λ columns. columns ≡ columns_of self) }
    {
        let value = Txt::copy_of(alloc, "value")?;
        let names = match self {
            Shape::Values => vec![in alloc; value]?,
            Shape::Entries => vec![in alloc; Txt::copy_of(alloc, "key")?, value]?,
        };
        Ok(Items::new(names))
    }

    /// Returns the rows of these entries.
    fn rows(self, alloc: Global, entries: &[Entry]) -> Result<Vec<Values>, Memory>
        ensures { IfOk result (λ rows. rows.items ≡ map (row_of self) entries.now) }
    {
        let mut rows = Vec::new(alloc);
        for entry in entries {
            rows.push(self.row(alloc, entry)?)?;
        }
        Ok(rows)
    }

    /// Returns the row of an entry.
    fn row(self, alloc: Global, entry: &Entry) -> Result<Values, Memory>
        ensures { IfOk result (λ row. row ≡ row_of self entry.now) }
    {
        let (key, value) = entry;
        let value = value.clone()?;
        let values = match self {
            Shape::Values => vec![in alloc; value]?,
            Shape::Entries => vec![in alloc; Value::Text(key.copy()?), value]?,
        };
        Ok(Items::new(values))
    }
}

//! The columns and the rows of queries, as the layer has them.
ghost use Rattle.std.specs.Prelude.{◌≡◌, IfOk};
ghost use Rattle.sqlite_driver.specs.Values.{ShowsRow, ShowsRows};

use crate::failure::Failure;
use crate::values::shown;
use dsql_value::{Columns, Items, Txt, Values};
use sqlite::types::Bytes;
use sqlite::{Error, Row, Statement};
use std::alloc::Global;

/// Returns the names of a query's columns.
pub(crate) fn columns_of(alloc: Global, statement: &Statement) -> Result<Columns, Failure>
    ensures { IfOk result (λ columns. columns ≡ statement.now.columns) }
{
    let names = statement.column_names();
    let mut columns = Vec::new(alloc);
    for (at, name) in names.iter().enumerate() {
        columns.push(column_of(alloc, name, at)?)?;
    }
    Ok(Items::new(columns))
}

/// Returns the name of the column in this place.
fn column_of(alloc: Global, name: &Bytes, at: usize) -> Result<Txt, Failure>
    ensures { IfOk result (λ column. column ≡ name.now) }
{
    match std::str::from_utf8(name.as_slice()) {
        Ok(name) => {
            let name = Txt::copy_of(alloc, name)?;
            Ok(name)
        }
        Err(_) => Err(Failure::Sqlite(Error::Utf8Error(at))),
    }
}

/// Returns the rows of a query's answer.
pub(crate) fn shown_rows(alloc: Global, rows: &[Row]) -> Result<Vec<Values>, Failure>
    ensures { IfOk result (λ all. ShowsRows rows.now all.items) }
{
    let mut all = Vec::with_capacity(alloc, rows.len())?;
    for row in rows {
        all.push(shown_row(alloc, row)?)?;
    }
    Ok(all)
}

/// Returns one row.
fn shown_row(alloc: Global, row: &Row) -> Result<Values, Failure>
    ensures { IfOk result (ShowsRow row.now) }
{
    let width = row.column_count();
    let mut values = Vec::with_capacity(alloc, width)?;
    for at in 0..width {
        let held = row.get_ref(at)?;
        let value = shown(alloc, held)?;
        values.push(value)?;
    }
    Ok(Items::new(values))
}

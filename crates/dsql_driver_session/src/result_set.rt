ghost use Rattle.std.specs.Prelude.{◌≡◌, ◌==◌, true, length, is_some, IfSome};
ghost use Rattle.dsql_driver_session.specs.Rows.{are_wide};

use dsql_value::{Columns, Items, Values};
use std::marker::Model;

/// The answer to a query: the names of its columns, and its rows. Each row has one value for each column.
#[derive(Drop)]
pub struct ResultSet {
    columns: Columns,
    rows: Items<Values>,
}

impl Model for ResultSet {
    ghost use Rattle.std.specs.Prelude.{◌≡◌, true, length};
    ghost use Rattle.dsql_driver_session.specs.Rows.{ResultSetState, are_wide};

    ghost Value = { ResultSetState };

    ghost view = { λ s. record { columns = s.columns; rows = s.rows } };

    ghost invariant = { λ s. are_wide (length s.columns) s.rows ≡ true };
}

impl ResultSet {
    /// Returns the answer with these rows, which have one value for each column.
    pub fn of(columns: Columns, rows: Vec<Values>) -> ResultSet
        requires { are_wide (length columns) rows.items ≡ true }
        ensures { result ≡ record { columns = columns; rows = rows.items } }
    {
        ResultSet {
            columns,
            rows: Items::new(rows),
        }
    }

    /// Returns the answer with these rows, or `None` if a row has more values than there are columns, or fewer.
    pub fn new(columns: Columns, rows: Vec<Values>) -> Option<ResultSet>
        ensures wide { is_some result ≡ are_wide (length columns) rows.items }
        ensures set { IfSome result (λ set. set ≡ record { columns = columns; rows = rows.items }) }
    {
        let width = columns.as_slice().len();
        if are_wide(rows.as_slice(), width) {
            Some(ResultSet::of(columns, rows))
        } else {
            None
        }
    }

    /// Returns the names of the columns, and the rows.
    pub(crate) fn into_parts(self) -> (Columns, Items<Values>)
        ensures columns { result.0 ≡ self.columns }
        ensures rows { result.1 ≡ self.rows }
        ensures wide { are_wide (length self.columns) self.rows ≡ true }
    {
        let ResultSet { columns, rows } = self;
        (columns, rows)
    }
}

/// Returns true if each row has this many values.
fn are_wide(rows: &[Values], width: usize) -> bool
    ensures { result ≡ are_wide width rows.now }
{
    rows.iter().all(|row| is_wide(row, width))
}

/// Returns true if the row has this many values.
fn is_wide(row: &Values, width: usize) -> bool
    ensures { result ≡ (length row.now == width) }
{
    row.as_slice().len() == width
}

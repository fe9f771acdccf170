ghost use Rattle.std.specs.Prelude.{◌≡◌, IfOk};
ghost use Rattle.dsql_driver_session.specs.Rows.{next_row, advanced};

use dsql_value::{Items, Memory, Values};
use std::marker::Model;

/// The rows of one query that are left to be given. They are those at the time of the query.
#[derive(Drop)]
pub(crate) struct Cursor {
    number: u32,
    width: usize,
    rows: Items<Values>,
    given: usize,
}

impl Model for Cursor {
    ghost use Rattle.std.specs.Prelude.{drop};
    ghost use Rattle.dsql_driver_session.specs.Rows.{CursorState};

    ghost Value = { CursorState };

    ghost view = { λ c. record { number = c.number; width = c.width; left = drop c.given c.rows } };
}

impl Cursor {
    /// Returns a cursor with this many columns that has given no row yet.
    pub(crate) fn new(number: u32, width: usize, rows: Items<Values>) -> Cursor
        ensures { result ≡ record { number = number; width = width; left = rows } }
    {
        Cursor {
            number,
            width,
            rows,
            given: 0,
        }
    }

    /// Returns the number of the cursor.
    pub(crate) fn number(&self) -> u32
        ensures { result ≡ self.now.number }
    {
        self.number
    }

    /// Returns the row that comes next, or `None` if none is left.
    pub(crate) fn next_row(&self) -> Result<Option<Values>, Memory>
        ensures { IfOk result (λ row. row ≡ next_row self.now) }
    {
        match self.rows.as_slice().get(self.given) {
            Some(row) => {
                let row = row.clone()?;
                Ok(Some(row))
            }
            None => Ok(None),
        }
    }

    /// Moves past the row that comes next.
    pub(crate) fn advance(&mut self)
        ensures { self.new ≡ advanced self.old }
    {
        if self.given < self.rows.as_slice().len() {
            self.given += 1;
        }
    }
}

ghost use Rattle.std.specs.Prelude.{◌≡◌, true, OnOk, OnErr, IfErr};
ghost use Rattle.std.specs.Option.{option_copied};
ghost use Rattle.dsql_rows.specs.OpenRows.{is_live, shown, ended_by, told_by, IsClosedBy, IsScan, scan_of};

use crate::end::RowsEnd;
use crate::fault::{RowsClosed, RowsFault};
use dsql_scan::{Cells, Dest, RowFault, scan_row};
use dsql_value::{Columns, Values};
use std::alloc::Global;

/// Rows that were made: their cursor, the names of their columns, the current row, and what ended them.
#[derive(Drop)]
pub struct Rows {
    pub cursor: u32,
    pub columns: Columns,
    pub current: Option<Values>,
    pub ended: Option<RowsEnd>,
}

impl Rows {
    /// Makes the values the current row. Fails with `RowsClosed` if the rows have ended.
    pub fn show(&mut self, values: Values) -> Result<(), RowsClosed>
        ensures ok { OnOk result (self.new ≡ shown values self.old) }
        ensures live { OnOk result (is_live self.old ≡ true) }
        ensures closed { IfErr result (IsClosedBy self.old) }
        ensures err { OnErr result (self.new ≡ self.old) }
    {
        if let Some(end) = &self.ended {
            return Err(RowsClosed { by: end.over() });
        }
        self.current = Some(values);
        Ok(())
    }

    /// Returns the current row as cells of the destinations.
    pub fn scan(&self, alloc: Global, dests: &[Dest]) -> Result<Cells, RowsFault>
        ensures { IsScan result self.now dests.now }
    {
        if let Some(end) = &self.ended {
            return Err(RowsFault::RowsClosed(end.over()));
        }
        let Some(values) = &self.current else {
            return Err(RowsFault::NoNextYet);
        };
        match scan_row(alloc, values.as_slice(), dests) {
            Ok(cells) => Ok(cells),
            Err(RowFault::Memory) => Err(RowsFault::Memory),
            Err(fault) => Err(RowsFault::Scan(fault)),
        }
    }

    /// Ends the rows unless they have ended, and returns whether they were live.
    pub fn close(&mut self, by: RowsEnd) -> bool
        ensures live { result ≡ is_live self.old }
        ensures rows { self.new ≡ ended_by by self.old }
    {
        let live = self.ended.is_none();
        if live {
            self.ended = Some(by);
        }
        live
    }

    /// Returns what ended the rows, if it is reported as an error.
    pub fn err(&self) -> Option<&RowsEnd>
        ensures { option_copied result ≡ told_by self.now }
    {
        self.ended.as_ref().filter(|end| end.is_fault())
    }
}

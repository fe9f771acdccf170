use crate::end::RowsOver;
use dsql_scan::RowFault;
use thiserror::Error;

/// The error of a call on rows that have already ended, by this.
#[derive(Clone, Copy, Debug, Error)]
#[error("sql: Rows are closed")]
pub struct RowsClosed {
    pub by: RowsOver,
}

/// Why rows don't scan their current row, as the error of Go's `Rows.Scan` says.
#[derive(Clone, Copy, Debug, Error)]
pub enum RowsFault {
    /// The rows have already ended, by this.
    #[error("sql: Rows are closed")]
    RowsClosed(RowsOver),
    /// There is no current row yet.
    #[error("sql: Scan called without calling Next")]
    NoNextYet,
    /// The current row doesn't fit these destinations, for this fault, which isn't `Memory`.
    #[error("sql: Scan error: {0}")]
    Scan(RowFault),
    /// There was no memory.
    #[error("out of memory")]
    Memory,
}

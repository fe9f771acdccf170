use dsql_history_work::{Cells, Columns, FaultWord, Level, RowsOver, Txt};
use dsql_pool::Stats;
use dsql_tx::TxEnd;

/// What closed the database.
#[derive(Clone, Copy, Debug, PartialEq, Eq)]
pub enum DbEnd {
    /// A client closed it.
    Close,
    /// The run ended.
    EndOfRun,
}

/// The reply to a call.
#[derive(Drop)]
pub enum Reply {
    /// The call is done, and has nothing to report.
    Ok,
    /// The exec was carried out. Go's `sql.Result`: the last id and the number of rows affected.
    Result { last: i64, affected: i64 },
    /// The query hands out rows with these columns.
    Rows(Columns),
    /// Says whether there was a row to fetch.
    Truth(bool),
    /// The values of a row as their destinations hold them.
    Cells(Cells),
    /// The driver failed with this text.
    Driver(Txt),
    /// The connection was bad after this many tries: Go's `driver.ErrBadConn`.
    BadConn(u32),
    /// The number of arguments differs from the number of the statement's inputs.
    NumArgs { want: u32, got: u32 },
    /// An argument is a number that no driver accepts, because its highest bit is set.
    HighBit(u64),
    /// An argument has this name, and the driver accepts no names.
    NamedRefused(Txt),
    /// An argument has this name, which doesn't begin with a letter.
    BadName(Txt),
    /// No call has handed out rows or begun a transaction under this label.
    Absent(Txt),
    /// This end had already ended the transaction: Go's `sql.ErrTxDone`.
    TxDone(TxEnd),
    /// This end had already ended the rows.
    RowsClosed(RowsOver),
    /// The begin asked for this isolation level, and the driver supports only the default one.
    Isolation(Level),
    /// The driver begins no read-only transactions.
    ReadOnly,
    /// No row has been fetched yet.
    NoNextYet,
    /// There was no row to read: Go's `sql.ErrNoRows`.
    NoRows,
    /// A row has `want` values, and there were `got` destinations.
    DestCount { want: u32, got: u32 },
    /// The value of this column, counted from 0, can't be scanned.
    Scan { column: u32, fault: FaultWord },
    /// The pool has as many connections open as it can hold at all.
    TooMany,
    /// The database is closed.
    DbClosed(DbEnd),
    /// Go's `sql.DBStats`.
    Stats(Stats),
}

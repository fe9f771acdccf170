ghost use Rattle.std.specs.Prelude.{◌≡◌};
ghost use Rattle.dsql_rows.specs.Ends.{over_of, is_fault};

use dsql_cancel::Cause;
use dsql_value::Txt;

/// What ended rows.
#[derive(Drop)]
pub enum RowsEnd {
    /// A call of their `Close`.
    Close,
    /// A `Next` that reached the end of the rows.
    EndOfRows,
    /// The end of the transaction that they are in.
    TxEnded,
    /// The cancellation of their query's token, for this cause.
    Cancel(Cause),
    /// An error of the driver, with its text.
    Failed(Txt),
    /// A bad connection.
    BadConn,
    /// The end of the run.
    EndOfRun,
}

/// What ended rows, without the text.
#[derive(Clone, Copy, Debug)]
pub enum RowsOver {
    Close,
    EndOfRows,
    TxEnded,
    Cancel(Cause),
    Failed,
    BadConn,
    EndOfRun,
}

impl RowsEnd {
    /// Returns the end without its text.
    pub fn over(&self) -> RowsOver
        ensures { result ≡ over_of self.now }
    {
        match self {
            RowsEnd::Close => RowsOver::Close,
            RowsEnd::EndOfRows => RowsOver::EndOfRows,
            RowsEnd::TxEnded => RowsOver::TxEnded,
            RowsEnd::Cancel(cause) => RowsOver::Cancel(*cause),
            RowsEnd::Failed(_) => RowsOver::Failed,
            RowsEnd::BadConn => RowsOver::BadConn,
            RowsEnd::EndOfRun => RowsOver::EndOfRun,
        }
    }

    /// Returns whether `Rows.Err` reports the end.
    pub(crate) fn is_fault(&self) -> bool
        ensures { result ≡ is_fault self.now }
    {
        matches!(
            self,
            RowsEnd::Cancel(_) | RowsEnd::Failed(_) | RowsEnd::BadConn
        )
    }
}

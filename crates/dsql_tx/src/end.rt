use dsql_cancel::Cause;
use thiserror::Error;

/// What ends a transaction.
#[derive(Clone, Copy, Debug)]
pub enum TxEnd {
    /// Its `Commit`.
    Commit,
    /// Its `Rollback`.
    Rollback,
    /// The cancellation, for this cause, of the token that it was begun with.
    Cancel(Cause),
    /// The end of the run.
    EndOfRun,
}

/// The error that this end had already ended the transaction: Go's `sql.ErrTxDone`.
#[derive(Clone, Copy, Debug, Error)]
#[error("sql: transaction has already been committed or rolled back")]
pub struct TxDone {
    pub by: TxEnd,
}

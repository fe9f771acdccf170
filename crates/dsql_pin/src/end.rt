use thiserror::Error;

/// What ends a pin.
#[derive(Clone, Copy, Debug)]
pub enum PinEnd {
    /// Its `Close`.
    Close,
    /// The connection was bad.
    BadConn,
    /// The connection is discarded, because a transaction on it was cancelled.
    Discard,
    /// The end of the run.
    EndOfRun,
}

/// The error that this end had already ended the pin: Go's `sql.ErrConnDone`.
#[derive(Clone, Copy, Debug, Error)]
#[error("sql: connection is already closed")]
pub struct ConnDone {
    pub by: PinEnd,
}

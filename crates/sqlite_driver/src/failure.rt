ghost use Rattle.std.specs.Prelude.{IfOk};
ghost use Rattle.sqlite_driver.specs.Served.{IsTwice, is_fail};

use dsql_driver::{Answered, DriverAnswer};
use dsql_driver_session::copies_of;
use dsql_value::{Memory, Txt};
use sqlite::{Error as SqliteError, ErrorCode};
use std::alloc::{AllocError, AllocFailed, Global};
use thiserror::Error;

/// Why a statement, or the end of a transaction, failed. Its text is what the driver answers.
#[derive(Debug, Drop, Error)]
pub(crate) enum Failure {
    #[error("{0}")]
    Sqlite(#[from] SqliteError),
    #[error("sqlite: no such parameter")]
    NoSuchParameter,
    #[error("sqlite: parameter has two values")]
    TwoValues,
    #[error("too many SQL variables")]
    TooManyInputs,
    #[error("sqlite: row of another width")]
    OtherWidth,
}

impl From<Memory> for Failure {
    fn from(_e: Memory) -> Failure {
        Failure::out_of_memory()
    }
}

impl From<AllocError> for Failure {
    fn from(_e: AllocError) -> Failure {
        Failure::out_of_memory()
    }
}

impl<T: Drop> From<AllocFailed<T>> for Failure {
    fn from(_e: AllocFailed<T>) -> Failure {
        Failure::out_of_memory()
    }
}

impl Failure {
    /// Returns the failure for want of memory.
    pub(crate) fn out_of_memory() -> Failure {
        Failure::Sqlite(SqliteError::SqliteFailure(ErrorCode::OutOfMemory))
    }

    /// Returns the failure that a transaction is begun in another, or that none is open that can be ended or used.
    pub(crate) fn transaction_state() -> Failure {
        Failure::Sqlite(SqliteError::SqliteFailure(ErrorCode::TransactionState))
    }

    /// Returns the answer that says what failed. Without memory for its text it returns the spare answer.
    pub(crate) fn answer_or(self, alloc: Global, spare: Answered) -> Answered
        requires { IsTwice is_fail spare }
        ensures { IsTwice is_fail result }
    {
        match self.copies(alloc) {
            Ok(answered) => answered,
            Err(Memory) => spare,
        }
    }

    /// Returns the answer that says what failed, with its copy.
    fn copies(&self, alloc: Global) -> Result<Answered, Memory>
        ensures { IfOk result (IsTwice is_fail) }
    {
        let text = self.to_string(alloc)?;
        copies_of(DriverAnswer::Fail(Txt::new(text)))
    }
}

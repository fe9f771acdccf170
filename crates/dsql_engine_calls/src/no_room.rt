use dsql_history::Memory;
use std::alloc::{AllocError, AllocFailed};
use thiserror::Error;

/// The error of a step for which there was no memory. Nothing changed.
#[derive(Clone, Copy, Debug, PartialEq, Eq, Error)]
#[error("out of memory")]
pub struct NoRoom;

impl From<AllocError> for NoRoom {
    fn from(_e: AllocError) -> NoRoom {
        NoRoom
    }
}

impl<T: Drop> From<AllocFailed<T>> for NoRoom {
    fn from(_e: AllocFailed<T>) -> NoRoom {
        NoRoom
    }
}

impl From<Memory> for NoRoom {
    fn from(_e: Memory) -> NoRoom {
        NoRoom
    }
}

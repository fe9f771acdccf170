use crate::dest::{Dest, Kind};
use thiserror::Error;

/// Why a value isn't scanned, as the error of Go's `Rows.Scan` says.
#[derive(Clone, Copy, Debug, Error)]
pub enum ScanFault {
    /// The value is nil, and this destination takes none.
    #[error("nil doesn't go into {0:?}")]
    FromNull(Dest),
    /// The value is no number, or no spelling of one. In an unsigned destination a number with a sign isn't one
    /// either.
    #[error("not a number")]
    NotANumber,
    /// The value is a number, and the destination is too narrow for it.
    #[error("number out of range")]
    OutOfRange,
    /// The value is no truth, or no spelling of one.
    #[error("not a truth value")]
    NotABool,
    /// The value's bytes aren't a text.
    #[error("not UTF-8")]
    NotUtf8,
    /// A value of this kind never goes into this destination. For a Null destination, `dest` names the one
    /// inside it.
    #[error("{from:?} doesn't go into {dest:?}")]
    Unsupported { from: Kind, dest: Dest },
    /// There was no memory.
    #[error("out of memory")]
    Memory,
}

/// Why the values of a row aren't scanned. A count or a place above 4,294,967,295 is given as 4,294,967,295.
#[derive(Clone, Copy, Debug, Error)]
pub enum RowFault {
    /// There are `want` values and `got` destinations.
    #[error("expected {want} destinations, not {got}")]
    DestCount { want: u32, got: u32 },
    /// The value at the place `index`, counted from 0, is the first that isn't scanned. It has this fault,
    /// which isn't `Memory`.
    #[error("column {index}: {fault}")]
    At { index: u32, fault: ScanFault },
    /// There was no memory.
    #[error("out of memory")]
    Memory,
}

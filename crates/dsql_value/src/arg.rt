ghost use Rattle.std.specs.Prelude.{◌≡◌};
ghost use Rattle.dsql_value.specs.declared.arg.ArgFault.TheVariants as faults;

use crate::items::Items;
use crate::text::{Bin, Txt};
use std::alloc::{AllocError, AllocFailed};
use thiserror::Error;

/// An argument that a caller gives for a statement's input. It has one of the types that Go's
/// `driver.DefaultParameterConverter` takes, or is one of `sql.NullString`, `sql.NullInt64` and their like.
/// `Time` counts nanoseconds since 1970. A Null form without a content is Go's with `Valid` false.
#[derive(Drop)]
pub enum Arg {
    Nil,
    I8(i8),
    I16(i16),
    I32(i32),
    I64(i64),
    U8(u8),
    U16(u16),
    U32(u32),
    U64(u64),
    Bool(bool),
    Text(Txt),
    Bytes(Bin),
    Time(i64),
    /// Go's `sql.NullString`.
    NullText(Option<Txt>),
    /// Go's `sql.NullInt64`.
    NullI64(Option<i64>),
    /// Go's `sql.NullInt32`.
    NullI32(Option<i32>),
    /// Go's `sql.NullInt16`.
    NullI16(Option<i16>),
    /// Go's `sql.NullByte`.
    NullU8(Option<u8>),
    /// Go's `sql.NullBool`.
    NullBool(Option<bool>),
    /// Go's `sql.NullTime`.
    NullTime(Option<i64>),
}

/// An argument with its name, if it has one, as Go's `sql.NamedArg`. The name has no symbol before it.
#[derive(Drop)]
pub struct Named {
    pub name: Option<Txt>,
    pub arg: Arg,
}

/// The arguments of one call, in order.
pub type Args = Items<Named>;

/// Why arguments are refused.
#[derive(Debug, Drop, Error)]
pub enum ArgFault {
    /// The number is above 9,223,372,036,854,775,807, the largest that a driver takes, as in Go's
    /// `driver.DefaultParameterConverter`.
    #[error("sql: unsigned value has its high bit set")]
    HighBit(u64),
    /// The statement has `want` inputs, by Go's `driver.Stmt.NumInput`, and there are `got` arguments. A number
    /// above 4,294,967,295 is reported as 4,294,967,295.
    #[error("sql: expected {want} arguments, got {got}")]
    NumArgs { want: u32, got: u32 },
    /// An argument has this name, and the driver takes no named arguments.
    #[error("sql: driver does not support the use of Named Parameters")]
    NamedRefused(Txt),
    /// The name doesn't begin with one of the letters `A` to `Z` and `a` to `z`.
    #[error("sql: name does not begin with a letter")]
    BadName(Txt),
    /// There was no memory.
    #[error("out of memory")]
    Memory,
}

impl From<AllocError> for ArgFault {
    ghost from_gives = { λ _ fault. fault ≡ faults.Memory };

    fn from(_e: AllocError) -> ArgFault {
        ArgFault::Memory
    }
}

impl<T: Drop> From<AllocFailed<T>> for ArgFault {
    ghost from_gives = { λ _ fault. fault ≡ faults.Memory };

    fn from(_e: AllocFailed<T>) -> ArgFault {
        ArgFault::Memory
    }
}

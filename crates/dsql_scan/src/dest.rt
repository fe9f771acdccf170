use dsql_value::{Faithful, Items};

/// A destination of a scan: the type of a variable whose pointer Go's `Rows.Scan` is given. `Any` is `*any`,
/// which takes each value as it is. The Null destinations are those of `NullString`, `NullInt64` and their
/// like. They also take nil.
#[derive(Clone, Copy, Debug)]
pub enum Dest {
    Text,
    Bytes,
    Bool,
    I8,
    I16,
    I32,
    I64,
    U8,
    U16,
    U32,
    U64,
    Time,
    Any,
    NullText,
    NullI64,
    NullI32,
    NullI16,
    NullU8,
    NullBool,
    NullTime,
}

impl Faithful for Dest {
    ghost same = { λ _ _ is. is };
}

/// The kind of a driver's value.
#[derive(Clone, Copy, Debug)]
pub enum Kind {
    Nil,
    Int,
    Bool,
    Bytes,
    Text,
    Time,
}

/// The destinations of one row, one for each column.
pub type Dests = Items<Dest>;

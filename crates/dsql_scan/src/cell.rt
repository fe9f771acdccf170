ghost use Rattle.std.specs.Prelude.{◌≡◌};

use dsql_value::{Bin, Faithful, Items, Txt};
use std::alloc::AllocError;

/// What a destination holds after a scan. `Int` is in a signed destination and `Uint` in an unsigned one,
/// within its width. `Time` counts nanoseconds since 1970. `Null` is in a destination that took nil.
#[derive(Debug, Drop)]
pub enum Cell {
    Null,
    Text(Txt),
    Bytes(Bin),
    Bool(bool),
    Int(i64),
    Uint(u64),
    Time(i64),
}

impl Clone for Cell {
    ghost is_clone = { λ x y. y ≡ x };

    fn clone(&self) -> Result<Cell, AllocError> {
        Ok(match self {
            Cell::Null => Cell::Null,
            Cell::Text(text) => Cell::Text(text.clone()?),
            Cell::Bytes(bytes) => Cell::Bytes(bytes.clone()?),
            Cell::Bool(truth) => Cell::Bool(*truth),
            Cell::Int(number) => Cell::Int(*number),
            Cell::Uint(number) => Cell::Uint(*number),
            Cell::Time(moment) => Cell::Time(*moment),
        })
    }
}

impl Faithful for Cell {
    ghost same = { λ _ _ is. is };
}

/// The cells of one row, one for each column.
pub type Cells = Items<Cell>;

ghost use Rattle.std.specs.Prelude.{◌≡◌};

use crate::items::{Faithful, Items};
use crate::text::{Bin, Txt, copy_of_optional};
use std::alloc::AllocError;

/// A value that a driver takes and gives, as Go's `driver.Value`. `Time` counts nanoseconds since 1970.
#[derive(Debug, Drop)]
pub enum Value {
    Nil,
    Int(i64),
    Bool(bool),
    Bytes(Bin),
    Text(Txt),
    Time(i64),
}

impl Clone for Value {
    ghost is_clone = { λ x y. y ≡ x };

    fn clone(&self) -> Result<Value, AllocError> {
        Ok(match self {
            Value::Nil => Value::Nil,
            Value::Int(number) => Value::Int(*number),
            Value::Bool(truth) => Value::Bool(*truth),
            Value::Bytes(bytes) => Value::Bytes(bytes.clone()?),
            Value::Text(text) => Value::Text(text.clone()?),
            Value::Time(moment) => Value::Time(*moment),
        })
    }
}

impl Faithful for Value {
    ghost same = { λ _ _ is. is };
}

/// A value for a statement's input, with its name if it has one, as Go's `driver.NamedValue`.
#[derive(Debug, Drop)]
pub struct Param {
    pub name: Option<Txt>,
    pub value: Value,
}

impl Clone for Param {
    ghost is_clone = { λ x y. y ≡ x };

    fn clone(&self) -> Result<Param, AllocError> {
        let name = copy_of_optional(&self.name)?;
        let value = self.value.clone()?;
        Ok(Param { name, value })
    }
}

impl Faithful for Param {
    ghost same = { λ _ _ is. is };
}

/// The parameters of one driver call, in order.
pub type Params = Items<Param>;

/// The names of a result's columns, in order.
pub type Columns = Items<Txt>;

/// The values of one row, one for each column.
pub type Values = Items<Value>;

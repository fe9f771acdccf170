//! The layer's values as SQLite's, and SQLite's as the layer's.
ghost use Rattle.std.specs.Prelude.{◌≡◌, IfOk};
ghost use Rattle.sqlite_driver.specs.Values.{Shows, ShowsText, sql_value};
ghost use Rattle.sqlite_value.specs.Value.{owned};

use dsql_value::{Bin, Memory, Txt, Value};
use sqlite::types::ValueRef;
use sqlite_sql::spelling;
use std::alloc::Global;

/// Returns the value that a statement gets for a value of the layer. It borrows the bytes.
pub(crate) fn lent(value: &Value) -> ValueRef<'_>
    ensures { owned result ≡ sql_value value.now }
{
    match value {
        Value::Nil => ValueRef::Null,
        Value::Int(number) => ValueRef::Int(*number),
        Value::Bool(truth) => ValueRef::Int(if *truth { 1 } else { 0 }),
        Value::Bytes(bytes) => ValueRef::Blob(bytes.as_slice()),
        Value::Text(text) => ValueRef::Text(text.as_str().as_bytes()),
        Value::Time(moment) => ValueRef::Int(*moment),
    }
}

/// Returns the layer's value for a value of a row.
pub(crate) fn shown(alloc: Global, held: ValueRef<'_>) -> Result<Value, Memory>
    ensures { IfOk result (Shows (owned held.entry)) }
{
    match held {
        ValueRef::Null => Ok(Value::Nil),
        ValueRef::Int(number) => Ok(Value::Int(number)),
        ValueRef::Real(number) => {
            let spelled = spelling::of_float(number);
            shown_text(alloc, spelled.as_slice())
        }
        ValueRef::Text(text) => shown_text(alloc, text),
        ValueRef::Blob(bytes) => {
            let bytes = Vec::from_slice(alloc, bytes)?;
            Ok(Value::Bytes(Bin::new(bytes)))
        }
    }
}

/// Returns the layer's value for the bytes of a text.
fn shown_text(alloc: Global, text: &[u8]) -> Result<Value, Memory>
    ensures { IfOk result (ShowsText text.now) }
{
    match std::str::from_utf8(text) {
        Ok(text) => {
            let text = Txt::copy_of(alloc, text)?;
            Ok(Value::Text(text))
        }
        Err(_) => {
            let bytes = Vec::from_slice(alloc, text)?;
            Ok(Value::Bytes(Bin::new(bytes)))
        }
    }
}

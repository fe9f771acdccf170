//! Values, parameters, names of columns and cells as JSON.
ghost use Rattle.std.specs.Prelude.{◌≡◌, [], ◌∷◌, codes, string_bytes};
ghost use Rattle.json.specs.Token.{begin_object, key};
ghost use Rattle.serde_json.specs.Data.{string};
ghost use Rattle.dsql_script_spelling.specs.LineValues.{under, natural, integer, bytes_data, time_data, u64_data, value_data, param_data, params_data, values_data, texts_data, cell_data, cells_data};
ghost use Rattle.dsql_script_spelling.specs.Spelling.{Adds, Spells};

use crate::parts::{write_integer, write_natural};
use dsql_scan::Cell;
use dsql_value::{Bin, Param, Txt, Value};
use json::Writer;
use std::alloc::{AllocError, Global};

/// The largest number that fits an `i64`.
const LARGEST_INT: u64 = 9_223_372_036_854_775_807;

/// Begins an object with the name of its first member.
pub(crate) fn begin_under(json: &mut Writer, name: &str) -> Result<(), AllocError>
    ensures { Adds result json.old json.new (begin_object ∷ key name.now ∷ []) }
{
    json.begin_object()?;
    json.key(name)
}

/// Writes an object of one member, a signed number.
pub(crate) fn integer_under(json: &mut Writer, name: &str, n: i64) -> Result<(), AllocError>
    ensures { Spells result json.old json.new (under name.now (integer n)) }
{
    begin_under(json, name)?;
    write_integer(json, n)?;
    json.end_object()
}

/// Writes an object of one member, an unsigned number.
pub(crate) fn natural_under(json: &mut Writer, name: &str, n: u64) -> Result<(), AllocError>
    ensures { Spells result json.old json.new (under name.now (natural n)) }
{
    begin_under(json, name)?;
    write_natural(json, n)?;
    json.end_object()
}

/// Writes an object of one member, a text.
pub(crate) fn text_under(json: &mut Writer, name: &str, text: &str) -> Result<(), AllocError>
    ensures { Spells result json.old json.new (under name.now (string text.now)) }
{
    begin_under(json, name)?;
    json.string(text)?;
    json.end_object()
}

/// Writes bytes as their digits under a name, so that they aren't taken for a text.
pub(crate) fn write_bytes(alloc: Global, json: &mut Writer, bytes: &Bin) -> Result<(), AllocError>
    ensures { Spells result json.old json.new (bytes_data bytes.now) }
{
    let digits = hex::encode(alloc, bytes.as_slice())?;
    text_under(json, "bytes", digits.as_str())
}

/// Writes a time under a name, so that it isn't taken for a number.
pub(crate) fn write_time(json: &mut Writer, n: i64) -> Result<(), AllocError>
    ensures { Spells result json.old json.new (time_data n) }
{
    integer_under(json, "time", n)
}

/// Writes an unsigned number of 64 bits, so that it isn't taken for a signed one.
pub(crate) fn write_u64(json: &mut Writer, n: u64) -> Result<(), AllocError>
    ensures { Spells result json.old json.new (u64_data n) }
{
    if n > LARGEST_INT {
        return write_natural(json, n);
    }
    natural_under(json, "u64", n)
}

/// Writes a driver's value.
fn write_value(alloc: Global, json: &mut Writer, value: &Value) -> Result<(), AllocError>
    ensures { Spells result json.old json.new (value_data value.now) }
{
    match value {
        Value::Nil => json.null(),
        Value::Int(n) => write_integer(json, *n),
        Value::Bool(b) => json.boolean(*b),
        Value::Bytes(bytes) => write_bytes(alloc, json, bytes),
        Value::Text(text) => json.string(text.as_str()),
        Value::Time(n) => write_time(json, *n),
    }
}

/// Writes a parameter: its value, inside an object if it has a name.
fn write_param(alloc: Global, json: &mut Writer, param: &Param) -> Result<(), AllocError>
    ensures { Spells result json.old json.new (param_data param.now) }
{
    let Some(name) = &param.name else {
        return write_value(alloc, json, &param.value);
    };
    begin_under(json, "name")?;
    json.string(name.as_str())?;
    json.key("value")?;
    write_value(alloc, json, &param.value)?;
    json.end_object()
}

/// Writes the parameters of a driver call, in order.
#[tactic(auto, using(crate::proofs::Spelled::spelled))]
pub fn write_params(alloc: Global, json: &mut Writer, params: &[Param]) -> Result<(), AllocError>
    ensures { Spells result json.old json.new (params_data params.now) }
{
    json.begin_array()?;
    for param in params {
        write_param(alloc, json, param)?;
    }
    json.end_array()
}

/// Writes the values of a row, in order.
#[tactic(auto, using(crate::proofs::Spelled::spelled))]
pub fn write_values(alloc: Global, json: &mut Writer, values: &[Value]) -> Result<(), AllocError>
    ensures { Spells result json.old json.new (values_data values.now) }
{
    json.begin_array()?;
    for value in values {
        write_value(alloc, json, value)?;
    }
    json.end_array()
}

/// Writes texts as an array of strings, in order.
#[tactic(auto, using(crate::proofs::Spelled::spelled))]
pub fn write_texts(json: &mut Writer, texts: &[Txt]) -> Result<(), AllocError>
    ensures { Spells result json.old json.new (texts_data texts.now) }
{
    json.begin_array()?;
    for text in texts {
        json.string(text.as_str())?;
    }
    json.end_array()
}

/// Writes what a destination holds. A null is in one that took a nil.
fn write_cell(alloc: Global, json: &mut Writer, cell: &Cell) -> Result<(), AllocError>
    ensures { Spells result json.old json.new (cell_data cell.now) }
{
    match cell {
        Cell::Null => json.null(),
        Cell::Text(text) => json.string(text.as_str()),
        Cell::Bytes(bytes) => write_bytes(alloc, json, bytes),
        Cell::Bool(b) => json.boolean(*b),
        Cell::Int(n) => write_integer(json, *n),
        Cell::Uint(n) => write_u64(json, *n),
        Cell::Time(n) => write_time(json, *n),
    }
}

/// Writes what the destinations of a row hold, in order.
#[tactic(auto, using(crate::proofs::Spelled::spelled))]
pub fn write_cells(alloc: Global, json: &mut Writer, cells: &[Cell]) -> Result<(), AllocError>
    ensures { Spells result json.old json.new (cells_data cells.now) }
{
    json.begin_array()?;
    for cell in cells {
        write_cell(alloc, json, cell)?;
    }
    json.end_array()
}

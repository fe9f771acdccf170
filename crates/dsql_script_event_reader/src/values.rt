//! Values, parameters, texts and cells. A value or a cell is read as the argument with the same spelling.
ghost use Rattle.std.specs.Prelude.{◌≡◌, Some};
ghost use Rattle.serde_json.specs.View.{view, items_view};
ghost use Rattle.serde_json.specs.Find.{as_str, get};
ghost use Rattle.dsql_script_forms.specs.Outcomes.{IsShaped};
ghost use Rattle.dsql_script_event_lines.specs.Parts.{each_of, list_at};
ghost use Rattle.dsql_script_event_reader.specs.Values as form;

use dsql_history::{Arg, Cell, Cells, Columns, Items, Param, Params, Txt, Value, Values};
use dsql_script_calls::read_arg;
use dsql_script_event_lines::items_at;
use dsql_script_forms::LineFault;
use serde_json::Value as Json;
use std::alloc::Global;

/// Returns the value that is spelled as an argument, or `None`.
fn value_as(arg: Arg) -> Option<Value>
    ensures { result ≡ form.value_as arg }
{
    match arg {
        Arg::Nil => Some(Value::Nil),
        Arg::I64(n) => Some(Value::Int(n)),
        Arg::Bool(b) => Some(Value::Bool(b)),
        Arg::Bytes(bytes) => Some(Value::Bytes(bytes)),
        Arg::Text(text) => Some(Value::Text(text)),
        Arg::Time(n) => Some(Value::Time(n)),
        _ => None,
    }
}

fn read_value(alloc: Global, value: &Json) -> Result<Value, LineFault>
    ensures { IsShaped result (form.value_of (view value.now)) }
{
    let arg = read_arg(alloc, value)?;
    value_as(arg).ok_or(LineFault::BadShape)
}

/// Returns the cell that is spelled as an argument, or `None`.
fn cell_as(arg: Arg) -> Option<Cell>
    ensures { result ≡ form.cell_as arg }
{
    match arg {
        Arg::Nil => Some(Cell::Null),
        Arg::I64(n) => Some(Cell::Int(n)),
        Arg::U64(n) => Some(Cell::Uint(n)),
        Arg::Bool(b) => Some(Cell::Bool(b)),
        Arg::Bytes(bytes) => Some(Cell::Bytes(bytes)),
        Arg::Text(text) => Some(Cell::Text(text)),
        Arg::Time(n) => Some(Cell::Time(n)),
        _ => None,
    }
}

fn read_cell(alloc: Global, cell: &Json) -> Result<Cell, LineFault>
    ensures { IsShaped result (form.cell_of (view cell.now)) }
{
    let arg = read_arg(alloc, cell)?;
    cell_as(arg).ok_or(LineFault::BadShape)
}

/// Reads a parameter, with its name if its object holds one.
fn read_param(alloc: Global, param: &Json) -> Result<Param, LineFault>
    ensures { IsShaped result (form.param_of (view param.now)) }
{
    match param.get("name") {
        Some(name) => read_named(alloc, name, param),
        None => {
            let value = read_value(alloc, param)?;
            Ok(Param { name: None, value })
        }
    }
}

fn read_named(alloc: Global, name: &Json, param: &Json) -> Result<Param, LineFault>
    ensures { IsShaped result (form.param_by (Some (view name.now)) (view param.now)) }
{
    let Json::String(name) = name else {
        return Err(LineFault::BadShape);
    };
    let value = param.get("value").ok_or(LineFault::BadShape)?;
    let value = read_value(alloc, value)?;
    let name = Some(Txt::new(name.clone()?));
    Ok(Param { name, value })
}

fn read_text(text: &Json) -> Result<Txt, LineFault>
    ensures { IsShaped result (as_str (view text.now)) }
{
    match text {
        Json::String(text) => Ok(Txt::new(text.clone()?)),
        _ => Err(LineFault::BadShape),
    }
}

/// Reads parameters in order.
fn each_param(alloc: Global, items: &[Json]) -> Result<Params, LineFault>
    ensures { IsShaped result (each_of form.param_of (items_view items.now)) }
{
    let mut params = Vec::new(alloc);
    for item in items {
        params.push(read_param(alloc, item)?)?;
    }
    Ok(Items::new(params))
}

/// Reads values in order.
fn each_value(alloc: Global, items: &[Json]) -> Result<Values, LineFault>
    ensures { IsShaped result (each_of form.value_of (items_view items.now)) }
{
    let mut values = Vec::new(alloc);
    for item in items {
        values.push(read_value(alloc, item)?)?;
    }
    Ok(Items::new(values))
}

/// Reads cells in order.
fn each_cell(alloc: Global, items: &[Json]) -> Result<Cells, LineFault>
    ensures { IsShaped result (each_of form.cell_of (items_view items.now)) }
{
    let mut cells = Vec::new(alloc);
    for item in items {
        cells.push(read_cell(alloc, item)?)?;
    }
    Ok(Items::new(cells))
}

/// Reads texts in order.
fn each_text(alloc: Global, items: &[Json]) -> Result<Columns, LineFault>
    ensures { IsShaped result (each_of as_str (items_view items.now)) }
{
    let mut texts = Vec::new(alloc);
    for item in items {
        texts.push(read_text(item)?)?;
    }
    Ok(Items::new(texts))
}

/// Reads the parameters in an array at a place of a line.
pub fn params_at(alloc: Global, line: &Json, place: usize) -> Result<Params, LineFault>
    ensures { IsShaped result (list_at form.param_of place (view line.now)) }
{
    each_param(alloc, items_at(line, place).ok_or(LineFault::BadShape)?)
}

/// Reads the values in an array at a place of a line.
pub fn values_at(alloc: Global, line: &Json, place: usize) -> Result<Values, LineFault>
    ensures { IsShaped result (list_at form.value_of place (view line.now)) }
{
    each_value(alloc, items_at(line, place).ok_or(LineFault::BadShape)?)
}

/// Reads the cells in an array at a place of a line.
pub fn cells_at(alloc: Global, line: &Json, place: usize) -> Result<Cells, LineFault>
    ensures { IsShaped result (list_at form.cell_of place (view line.now)) }
{
    each_cell(alloc, items_at(line, place).ok_or(LineFault::BadShape)?)
}

/// Reads the texts in an array at a place of a line.
pub fn texts_at(alloc: Global, line: &Json, place: usize) -> Result<Columns, LineFault>
    ensures { IsShaped result (list_at as_str place (view line.now)) }
{
    each_text(alloc, items_at(line, place).ok_or(LineFault::BadShape)?)
}

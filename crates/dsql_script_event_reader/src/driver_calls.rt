//! Reads driver calls.
ghost use Rattle.std.specs.Prelude.{◌≡◌};
ghost use Rattle.serde_json.specs.View.{view};
ghost use Rattle.dsql_history.specs.driver.declared.call.DriverCall.TheVariants as call;
ghost use Rattle.dsql_script_forms.specs.Outcomes.{IsShaped};
ghost use Rattle.dsql_script_event_reader.specs.DriverForms as form;

use crate::values::params_at;
use dsql_history::{DriverCall, Input, Level, Txt};
use dsql_script_event_lines::{copy_at, number_at, text_at, truth_at};
use dsql_script_forms::LineFault;
use serde_json::Value;
use std::alloc::Global;

/// Returns the isolation level that a word names, or `None`.
pub fn level_of(word: &str) -> Option<Level>
    ensures { result ≡ form.level_of word.now }
{
    match word {
        "default" => Some(Level::Default),
        "read_uncommitted" => Some(Level::ReadUncommitted),
        "read_committed" => Some(Level::ReadCommitted),
        "write_committed" => Some(Level::WriteCommitted),
        "repeatable_read" => Some(Level::RepeatableRead),
        "snapshot" => Some(Level::Snapshot),
        "serializable" => Some(Level::Serializable),
        "linearizable" => Some(Level::Linearizable),
        _ => None,
    }
}

/// Reads a statement's text, or the number of its handle.
fn read_input(input: &Value) -> Result<Input, LineFault>
    ensures { IsShaped result (form.input_of (view input.now)) }
{
    match input {
        Value::String(text) => Ok(Input::Text(Txt::new(text.clone()?))),
        Value::Number(number) => {
            let handle = number.as_u64().ok_or(LineFault::BadShape)?;
            let handle = u32::try_from(handle).ok().ok_or(LineFault::BadShape)?;
            Ok(Input::Handle(handle))
        }
        _ => Err(LineFault::BadShape),
    }
}

fn input_at(line: &Value, place: usize) -> Result<Input, LineFault>
    ensures { IsShaped result (form.input_at place (view line.now)) }
{
    read_input(line.get(place).ok_or(LineFault::BadShape)?)
}

fn read_exec(alloc: Global, line: &Value) -> Result<DriverCall, LineFault>
    ensures { IsShaped result (form.run_by call.Exec (view line.now)) }
{
    let input = input_at(line, 1)?;
    let params = params_at(alloc, line, 2)?;
    Ok(DriverCall::Exec(input, params))
}

fn read_query(alloc: Global, line: &Value) -> Result<DriverCall, LineFault>
    ensures { IsShaped result (form.run_by call.Query (view line.now)) }
{
    let input = input_at(line, 1)?;
    let params = params_at(alloc, line, 2)?;
    Ok(DriverCall::Query(input, params))
}

fn read_begin(line: &Value) -> Option<DriverCall>
    ensures { result ≡ form.begin_of (view line.now) }
{
    let level = level_of(text_at(line, 1)?)?;
    let read_only = truth_at(line, 2)?;
    Some(DriverCall::Begin { level, read_only })
}

/// Returns a driver call whose word stands alone, or `None`.
fn lone_call(word: &str) -> Option<DriverCall>
    ensures { result ≡ form.lone_call word.now }
{
    match word {
        "connect" => Some(DriverCall::Connect),
        "reset" => Some(DriverCall::Reset),
        "valid" => Some(DriverCall::Valid),
        "ping" => Some(DriverCall::Ping),
        "commit" => Some(DriverCall::Commit),
        "rollback" => Some(DriverCall::Rollback),
        "shut" => Some(DriverCall::Shut),
        _ => None,
    }
}

/// Reads a driver call by its word.
fn read_by(alloc: Global, word: &str, line: &Value) -> Result<DriverCall, LineFault>
    ensures { IsShaped result (form.call_by word.now (view line.now)) }
{
    match word {
        "prepare" => Ok(DriverCall::Prepare(copy_at(alloc, line, 1)?)),
        "close_stmt" => number_at(line, 1)
            .map(DriverCall::CloseStmt)
            .ok_or(LineFault::BadShape),
        "exec" => read_exec(alloc, line),
        "query" => read_query(alloc, line),
        "next" => number_at(line, 1)
            .map(DriverCall::Next)
            .ok_or(LineFault::BadShape),
        "close_rows" => number_at(line, 1)
            .map(DriverCall::CloseRows)
            .ok_or(LineFault::BadShape),
        "begin" => read_begin(line).ok_or(LineFault::BadShape),
        _ => lone_call(word).ok_or(LineFault::BadShape),
    }
}

/// Reads a driver call.
pub fn read_call(alloc: Global, line: &Value) -> Result<DriverCall, LineFault>
    ensures { IsShaped result (form.call_of (view line.now)) }
{
    let word = text_at(line, 0).ok_or(LineFault::BadShape)?;
    read_by(alloc, word, line)
}

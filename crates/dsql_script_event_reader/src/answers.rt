//! Answers of drivers.
ghost use Rattle.std.specs.Prelude.{◌≡◌};
ghost use Rattle.serde_json.specs.View.{view};
ghost use Rattle.dsql_script_forms.specs.Outcomes.{IsShaped};
ghost use Rattle.dsql_script_event_reader.specs.DriverForms as form;

use crate::values::{texts_at, values_at};
use dsql_history::DriverAnswer;
use dsql_script_event_lines::{copy_at, integer_at, number_at, short_at, text_at};
use dsql_script_forms::LineFault;
use serde_json::Value;
use std::alloc::Global;

fn read_prepared(line: &Value) -> Option<DriverAnswer>
    ensures { result ≡ form.prepared_of (view line.now) }
{
    let handle = number_at(line, 1)?;
    let inputs = short_at(line, 2)?;
    Some(DriverAnswer::Prepared { handle, inputs })
}

fn read_result(line: &Value) -> Option<DriverAnswer>
    ensures { result ≡ form.result_of (view line.now) }
{
    let last = integer_at(line, 1)?;
    let affected = integer_at(line, 2)?;
    Some(DriverAnswer::Result { last, affected })
}

fn read_cursor(alloc: Global, line: &Value) -> Result<DriverAnswer, LineFault>
    ensures { IsShaped result (form.cursor_of (view line.now)) }
{
    let rows = number_at(line, 1).ok_or(LineFault::BadShape)?;
    let columns = texts_at(alloc, line, 2)?;
    Ok(DriverAnswer::Cursor { rows, columns })
}

/// Returns an answer whose word stands alone, or `None`.
fn lone_answer(word: &str) -> Option<DriverAnswer>
    ensures { result ≡ form.lone_answer word.now }
{
    match word {
        "done" => Some(DriverAnswer::Done),
        "end" => Some(DriverAnswer::End),
        "invalid" => Some(DriverAnswer::Invalid),
        "skip" => Some(DriverAnswer::Skip),
        "bad" => Some(DriverAnswer::Bad),
        "memory" => Some(DriverAnswer::Memory),
        _ => None,
    }
}

/// Reads an answer by its word.
fn read_by(alloc: Global, word: &str, line: &Value) -> Result<DriverAnswer, LineFault>
    ensures { IsShaped result (form.answer_by word.now (view line.now)) }
{
    match word {
        "prepared" => read_prepared(line).ok_or(LineFault::BadShape),
        "result" => read_result(line).ok_or(LineFault::BadShape),
        "cursor" => read_cursor(alloc, line),
        "row" => Ok(DriverAnswer::Row(values_at(alloc, line, 1)?)),
        "fail" => Ok(DriverAnswer::Fail(copy_at(alloc, line, 1)?)),
        _ => lone_answer(word).ok_or(LineFault::BadShape),
    }
}

/// Reads a driver's answer.
pub fn read_answer(alloc: Global, line: &Value) -> Result<DriverAnswer, LineFault>
    ensures { IsShaped result (form.answer_of (view line.now)) }
{
    let word = text_at(line, 0).ok_or(LineFault::BadShape)?;
    read_by(alloc, word, line)
}

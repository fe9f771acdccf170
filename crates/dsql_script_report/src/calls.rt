//! Writes driver calls and their answers as JSON.
ghost use Rattle.std.specs.Prelude.{◌≡◌, [], ◌∷◌, codes};
ghost use Rattle.dsql_script_spelling.specs.LineValues.{worded, natural, integer, params_data, values_data, texts_data};
ghost use Rattle.dsql_script_report.specs.LineCalls.{level_word, input_data, call_data, answer_data};
ghost use Rattle.dsql_script_spelling.specs.Spelling.{Spells};

use dsql_history::{DriverAnswer, DriverCall, Input, Level, Param, Txt, Value};
use dsql_script_spelling::{
    begin, begin_numbered, write_integer, write_natural, write_numbered, write_params, write_texts,
    write_told, write_values, write_word,
};
use json::Writer;
use std::alloc::{AllocError, Global};

/// Returns the word for an isolation level.
fn word_of(level: Level) -> &'static str
    ensures { result.now ≡ level_word level }
{
    match level {
        Level::Default => "default",
        Level::ReadUncommitted => "read_uncommitted",
        Level::ReadCommitted => "read_committed",
        Level::WriteCommitted => "write_committed",
        Level::RepeatableRead => "repeatable_read",
        Level::Snapshot => "snapshot",
        Level::Serializable => "serializable",
        Level::Linearizable => "linearizable",
    }
}

/// Writes a statement: its text as a string, or its handle as a number.
fn write_input(json: &mut Writer, input: &Input) -> Result<(), AllocError>
    ensures { Spells result json.old json.new (input_data input.now) }
{
    match input {
        Input::Text(text) => json.string(text.as_str()),
        Input::Handle(handle) => write_natural(json, u64::from(*handle)),
    }
}

/// Writes a driver call that runs a statement: its word, the statement and the parameters.
fn write_run(
    alloc: Global,
    json: &mut Writer,
    word: &str,
    input: &Input,
    params: &[Param],
) -> Result<(), AllocError>
    ensures { Spells result json.old json.new
        (worded word.now (input_data input.now ∷ params_data params.now ∷ [])) }
{
    begin(json, word)?;
    write_input(json, input)?;
    write_params(alloc, json, params)?;
    json.end_array()
}

/// Writes a begin with its level and whether the transaction only reads.
fn write_begin(json: &mut Writer, level: Level, read_only: bool) -> Result<(), AllocError>
    ensures { Spells result json.old json.new (call_data (DriverCall.Begin level read_only)) }
{
    begin(json, "begin")?;
    json.string(word_of(level))?;
    json.boolean(read_only)?;
    json.end_array()
}

/// Writes a driver call: its word and what it is made with.
pub fn write_call(alloc: Global, json: &mut Writer, call: &DriverCall) -> Result<(), AllocError>
    ensures { Spells result json.old json.new (call_data call.now) }
{
    match call {
        DriverCall::Connect => write_word(json, "connect"),
        DriverCall::Reset => write_word(json, "reset"),
        DriverCall::Valid => write_word(json, "valid"),
        DriverCall::Ping => write_word(json, "ping"),
        DriverCall::Prepare(text) => write_told(json, "prepare", text.as_str()),
        DriverCall::CloseStmt(handle) => write_numbered(json, "close_stmt", *handle),
        DriverCall::Exec(input, params) => {
            write_run(alloc, json, "exec", input, params.as_slice())
        }
        DriverCall::Query(input, params) => {
            write_run(alloc, json, "query", input, params.as_slice())
        }
        DriverCall::Next(rows) => write_numbered(json, "next", *rows),
        DriverCall::CloseRows(rows) => write_numbered(json, "close_rows", *rows),
        DriverCall::Begin { level, read_only } => write_begin(json, *level, *read_only),
        DriverCall::Commit => write_word(json, "commit"),
        DriverCall::Rollback => write_word(json, "rollback"),
        DriverCall::Shut => write_word(json, "shut"),
    }
}

/// Writes a prepared statement: its handle and the number of its inputs.
fn write_prepared(json: &mut Writer, handle: u32, inputs: i64) -> Result<(), AllocError>
    ensures { Spells result json.old json.new
        (worded (codes "prepared") (natural handle ∷ integer inputs ∷ [])) }
{
    begin_numbered(json, "prepared", handle)?;
    write_integer(json, inputs)?;
    json.end_array()
}

/// Writes the two numbers of an executed statement.
fn write_result(json: &mut Writer, last: i64, affected: i64) -> Result<(), AllocError>
    ensures { Spells result json.old json.new (answer_data (DriverAnswer.Result last affected)) }
{
    begin(json, "result")?;
    write_integer(json, last)?;
    write_integer(json, affected)?;
    json.end_array()
}

/// Writes a cursor: the number of its rows and the names of their columns.
fn write_cursor(json: &mut Writer, rows: u32, columns: &[Txt]) -> Result<(), AllocError>
    ensures { Spells result json.old json.new
        (worded (codes "cursor") (natural rows ∷ texts_data columns.now ∷ [])) }
{
    begin_numbered(json, "cursor", rows)?;
    write_texts(json, columns)?;
    json.end_array()
}

/// Writes the values of a row.
fn write_row(alloc: Global, json: &mut Writer, values: &[Value]) -> Result<(), AllocError>
    ensures { Spells result json.old json.new (worded (codes "row") (values_data values.now ∷ [])) }
{
    begin(json, "row")?;
    write_values(alloc, json, values)?;
    json.end_array()
}

/// Writes a driver's answer: its word and what it gives. A lack of memory has a word too, so that every answer
/// can be shown, but a report never holds it.
pub fn write_answer(
    alloc: Global,
    json: &mut Writer,
    answer: &DriverAnswer,
) -> Result<(), AllocError>
    ensures { Spells result json.old json.new (answer_data answer.now) }
{
    match answer {
        DriverAnswer::Done => write_word(json, "done"),
        DriverAnswer::Prepared { handle, inputs } => {
            write_prepared(json, *handle, i64::from(*inputs))
        }
        DriverAnswer::Result { last, affected } => write_result(json, *last, *affected),
        DriverAnswer::Cursor { rows, columns } => write_cursor(json, *rows, columns.as_slice()),
        DriverAnswer::Row(values) => write_row(alloc, json, values.as_slice()),
        DriverAnswer::End => write_word(json, "end"),
        DriverAnswer::Invalid => write_word(json, "invalid"),
        DriverAnswer::Skip => write_word(json, "skip"),
        DriverAnswer::Bad => write_word(json, "bad"),
        DriverAnswer::Fail(text) => write_told(json, "fail", text.as_str()),
        DriverAnswer::Memory => write_word(json, "memory"),
    }
}

//! Replies. The text of an error isn't read: its code and its other parts say which error it is.
ghost use Rattle.std.specs.Prelude.{◌≡◌};
ghost use Rattle.serde_json.specs.View.{view};
ghost use Rattle.serde_json.specs.Find.{at};
ghost use Rattle.dsql_script_forms.specs.Outcomes.{IsShaped};
ghost use Rattle.dsql_script_event_reader.specs.ReplyForms.{fault_of, three_at, stats_of};
ghost use Rattle.dsql_history.specs.declared.reply.Reply.TheVariants as reply;
ghost use Rattle.dsql_script_event_reader.specs.ReplyForms as form;

use crate::driver_calls::level_of;
use crate::ends::{db_end_of, over_of, tx_end_of};
use crate::values::{cells_at, texts_at};
use dsql_history::{FaultWord, Reply, Stats};
use dsql_script_event_lines::{copy_at, integer_at, natural_at, number_at, text_at};
use dsql_script_forms::LineFault;
use serde_json::Value;
use std::alloc::Global;

/// Returns the numbers at three places.
fn three_at(line: &Value, i: usize, j: usize, k: usize) -> Option<(u64, u64, u64)>
    ensures { result ≡ three_at i j k (view line.now) }
{
    Some((
        natural_at(line, i)?,
        natural_at(line, j)?,
        natural_at(line, k)?,
    ))
}

/// Reads the nine numbers of statistics.
fn read_stats(numbers: &Value) -> Option<Stats>
    ensures { result ≡ stats_of (view numbers.now) }
{
    let limits = three_at(numbers, 0, 1, 2)?;
    let waits = three_at(numbers, 3, 4, 5)?;
    let closings = three_at(numbers, 6, 7, 8)?;
    Some(Stats {
        max_open_connections: limits.0,
        open_connections: limits.1,
        in_use: limits.2,
        idle: waits.0,
        wait_count: waits.1,
        wait_duration: waits.2,
        max_idle_closed: closings.0,
        max_idle_time_closed: closings.1,
        max_lifetime_closed: closings.2,
    })
}

fn read_result(line: &Value) -> Option<Reply>
    ensures { result ≡ form.result_of (view line.now) }
{
    let last = integer_at(line, 2)?;
    let affected = integer_at(line, 3)?;
    Some(Reply::Result { last, affected })
}

/// Reads a successful reply by its word.
fn read_told(alloc: Global, word: &str, line: &Value) -> Result<Reply, LineFault>
    ensures { IsShaped result (form.told_by word.now (view line.now)) }
{
    match word {
        "result" => read_result(line).ok_or(LineFault::BadShape),
        "rows" => Ok(Reply::Rows(texts_at(alloc, line, 2)?)),
        "cells" => Ok(Reply::Cells(cells_at(alloc, line, 2)?)),
        "stats" => {
            let numbers = line.get(2).ok_or(LineFault::BadShape)?;
            read_stats(numbers)
                .map(Reply::Stats)
                .ok_or(LineFault::BadShape)
        }
        _ => Err(LineFault::BadShape),
    }
}

/// Reads a successful reply by what follows `ok`, if anything does.
fn read_well(alloc: Global, line: &Value) -> Result<Reply, LineFault>
    ensures { IsShaped result (form.well_by (at 1 (view line.now)) (view line.now)) }
{
    match line.get(1) {
        None => Ok(Reply::Ok),
        Some(Value::Bool(truth)) => Ok(Reply::Truth(*truth)),
        Some(Value::String(word)) => read_told(alloc, word.as_str(), line),
        Some(_) => Err(LineFault::BadShape),
    }
}

fn read_num_args(line: &Value) -> Option<Reply>
    ensures { result ≡ form.two_numbers reply.NumArgs (view line.now) }
{
    let want = number_at(line, 2)?;
    let got = number_at(line, 3)?;
    Some(Reply::NumArgs { want, got })
}

fn read_dest_count(line: &Value) -> Option<Reply>
    ensures { result ≡ form.two_numbers reply.DestCount (view line.now) }
{
    let want = number_at(line, 2)?;
    let got = number_at(line, 3)?;
    Some(Reply::DestCount { want, got })
}

fn fault_of(word: &str) -> Option<FaultWord>
    ensures { result ≡ fault_of word.now }
{
    match word {
        "from_null" => Some(FaultWord::FromNull),
        "not_a_number" => Some(FaultWord::NotANumber),
        "out_of_range" => Some(FaultWord::OutOfRange),
        "not_a_bool" => Some(FaultWord::NotABool),
        "not_utf8" => Some(FaultWord::NotUtf8),
        "unsupported" => Some(FaultWord::Unsupported),
        _ => None,
    }
}

fn read_scan(line: &Value) -> Option<Reply>
    ensures { result ≡ form.scan_of (view line.now) }
{
    let column = number_at(line, 2)?;
    let fault = fault_of(text_at(line, 3)?)?;
    Some(Reply::Scan { column, fault })
}

/// Reads an error of a transaction by its code.
fn read_tx_error(code: &str, line: &Value) -> Option<Reply>
    ensures { result ≡ form.tx_error code.now (view line.now) }
{
    match code {
        "tx_done" => tx_end_of(text_at(line, 2)?).map(Reply::TxDone),
        "isolation" => level_of(text_at(line, 2)?).map(Reply::Isolation),
        "read_only" => Some(Reply::ReadOnly),
        _ => None,
    }
}

/// Reads an error that shows no text of its own, by its code.
fn read_plain_error(code: &str, line: &Value) -> Option<Reply>
    ensures { result ≡ form.plain_error code.now (view line.now) }
{
    match code {
        "bad_conn" => number_at(line, 2).map(Reply::BadConn),
        "num_args" => read_num_args(line),
        "high_bit" => natural_at(line, 2).map(Reply::HighBit),
        "rows_closed" => over_of(text_at(line, 2)?).map(Reply::RowsClosed),
        "no_next" => Some(Reply::NoNextYet),
        "no_rows" => Some(Reply::NoRows),
        "dest_count" => read_dest_count(line),
        "scan" => read_scan(line),
        "too_many" => Some(Reply::TooMany),
        "db_closed" => db_end_of(text_at(line, 2)?).map(Reply::DbClosed),
        _ => read_tx_error(code, line),
    }
}

/// Reads an error by its code.
fn read_error_by(alloc: Global, code: &str, line: &Value) -> Result<Reply, LineFault>
    ensures { IsShaped result (form.error_by code.now (view line.now)) }
{
    match code {
        "driver" => Ok(Reply::Driver(copy_at(alloc, line, 2)?)),
        "named" => Ok(Reply::NamedRefused(copy_at(alloc, line, 2)?)),
        "bad_name" => Ok(Reply::BadName(copy_at(alloc, line, 2)?)),
        "absent" => Ok(Reply::Absent(copy_at(alloc, line, 2)?)),
        _ => read_plain_error(code, line).ok_or(LineFault::BadShape),
    }
}

fn read_error(alloc: Global, line: &Value) -> Result<Reply, LineFault>
    ensures { IsShaped result (form.error_of (view line.now)) }
{
    let code = text_at(line, 1).ok_or(LineFault::BadShape)?;
    read_error_by(alloc, code, line)
}

/// Reads a reply.
pub fn read_reply(alloc: Global, line: &Value) -> Result<Reply, LineFault>
    ensures { IsShaped result (form.reply_of (view line.now)) }
{
    match text_at(line, 0) {
        Some("ok") => read_well(alloc, line),
        Some("err") => read_error(alloc, line),
        _ => Err(LineFault::BadShape),
    }
}

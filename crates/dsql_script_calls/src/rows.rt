//! Reads the calls on rows that a query handed out.
ghost use Rattle.std.specs.Prelude.{map};
ghost use Rattle.std.specs.Option.{option_copied};
ghost use Rattle.dsql_script_spelling.specs.Dests.{dests_of};
ghost use Rattle.dsql_script_forms.specs.Outcomes.{IsReading};
ghost use Rattle.dsql_script_calls.specs.ScriptWords.{label_of};
ghost use Rattle.dsql_script_calls.specs.ScriptCalls.{rows_call_by, scan_of, scan_into};

use crate::labels;
use dsql_history::Op;
use dsql_script_forms::{LineFault, MAX_ARGS, What, read_dests};
use std::alloc::Global;

/// Reads a call on rows by its first word and the words after it.
pub fn read_call(
    alloc: Global,
    verb: &str,
    words: &[&str],
    array: Option<&str>,
) -> Result<Op, LineFault>
    ensures { IsReading result
        (rows_call_by verb.now (map (λ w. w.now) words.now) (option_copied array.entry)) }
{
    match verb {
        "next" => {
            let rows = labels::read_label_alone(alloc, words, array)?;
            Ok(Op::Next { rows })
        }
        "scan" => read_scan(alloc, words, array),
        "rowsclose" => {
            let rows = labels::read_label_alone(alloc, words, array)?;
            Ok(Op::RowsClose { rows })
        }
        "err" => {
            let rows = labels::read_label_alone(alloc, words, array)?;
            Ok(Op::Err { rows })
        }
        _ => Err(LineFault::NoSuchWord),
    }
}

/// Reads a call that scans a row, by the words after `scan`.
fn read_scan(alloc: Global, words: &[&str], array: Option<&str>) -> Result<Op, LineFault>
    ensures { IsReading result
        (scan_of (map (λ w. w.now) words.now) (option_copied array.entry)) }
{
    if array.is_some() {
        return Err(LineFault::BadShape);
    }
    match words {
        [rows, dests] => read_scan_into(alloc, rows, dests),
        _ => Err(LineFault::BadShape),
    }
}

/// Reads a call that scans a row of the rows with this label into the destinations in a word.
fn read_scan_into(alloc: Global, rows: &str, dests: &str) -> Result<Op, LineFault>
    ensures { IsReading result (scan_into (label_of rows.now) (dests_of dests.now)) }
{
    let rows = labels::read_label(alloc, rows)?;
    let dests = read_dests(alloc, dests)?;
    if dests.as_slice().len() > MAX_ARGS {
        return Err(LineFault::TooMany(What::Args));
    }
    Ok(Op::Scan { rows, dests })
}

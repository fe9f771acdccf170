//! Writes replies as JSON.
ghost use Rattle.std.specs.Prelude.{◌≡◌, [], ◌∷◌, codes, map, string_bytes, IfOk};
ghost use Rattle.json.specs.Token.{begin_array, end_array, string as text_token};
ghost use Rattle.serde_json.specs.Data.{string};
ghost use Rattle.dsql_script_spelling.specs.LineValues.{list_data, worded, natural, texts_data, cells_data};
ghost use Rattle.dsql_script_report.specs.LineReplies.{num_args_text, dest_count_text, fault_word, scan_text, cancel_word, over_word, db_end_word, numbers_of, tx_end_word, reply_data};
ghost use Rattle.dsql_script_spelling.specs.Spelling.{Adds, Spells};

use crate::levels::level_word;
use dsql_history::{
    Cause, Cell, DbEnd, FaultWord, Level, MOST_OPEN, Reply, RowsOver, Stats, TxEnd, Txt,
};
use dsql_script_spelling::{
    begin, write_cells, write_integer, write_natural, write_texts, write_word,
};
use json::Writer;
use std::alloc::{AllocError, Global};

/// The number of connections that may be open at all.
const MOST_SHOWN: u64 = MOST_OPEN as u64;

/// Begins an error with its code.
fn begin_error(json: &mut Writer, code: &str) -> Result<(), AllocError>
    ensures { Adds result json.old json.new
        (begin_array ∷ text_token (codes "err") ∷ text_token code.now ∷ []) }
{
    begin(json, "err")?;
    json.string(code)
}

/// Ends an error with its text.
fn end_error(json: &mut Writer, text: &str) -> Result<(), AllocError>
    ensures { Adds result json.old json.new (text_token text.now ∷ end_array ∷ []) }
{
    json.string(text)?;
    json.end_array()
}

/// Writes an error by its code and its text.
fn write_error(json: &mut Writer, code: &str, text: &str) -> Result<(), AllocError>
    ensures { Spells result json.old json.new
        (worded (codes "err") (string code.now ∷ string text.now ∷ [])) }
{
    begin_error(json, code)?;
    end_error(json, text)
}

/// Writes an error by its code, a word or a name that it shows, and its text.
fn write_error_of(json: &mut Writer, code: &str, shown: &str, text: &str) -> Result<(), AllocError>
    ensures { Spells result json.old json.new
        (worded (codes "err") (string code.now ∷ string shown.now ∷ string text.now ∷ [])) }
{
    begin_error(json, code)?;
    json.string(shown)?;
    end_error(json, text)
}

/// Writes an error by its code, a number that it shows, and its text.
fn write_error_at(json: &mut Writer, code: &str, n: u64, text: &str) -> Result<(), AllocError>
    ensures { Spells result json.old json.new
        (worded (codes "err") (string code.now ∷ natural n ∷ string text.now ∷ [])) }
{
    begin_error(json, code)?;
    write_natural(json, n)?;
    end_error(json, text)
}

/// Writes an error by its code, the number of things wanted, the number given, and its text.
fn write_count_error(
    json: &mut Writer,
    code: &str,
    want: u32,
    got: u32,
    text: &str,
) -> Result<(), AllocError>
    ensures { Spells result json.old json.new (worded (codes "err")
        (string code.now ∷ natural want ∷ natural got ∷ string text.now ∷ [])) }
{
    begin_error(json, code)?;
    write_natural(json, u64::from(want))?;
    write_natural(json, u64::from(got))?;
    end_error(json, text)
}

/// Returns the text of an error about the number of arguments.
fn num_args_text(alloc: Global, want: u32, got: u32) -> Result<String, AllocError>
    ensures { IfOk result (λ s. string_bytes s ≡ num_args_text want got) }
{
    format!(in alloc; "sql: expected {want} arguments, got {got}")
}

/// Writes the error for a wrong number of arguments.
fn write_num_args(alloc: Global, json: &mut Writer, want: u32, got: u32) -> Result<(), AllocError>
    ensures { Spells result json.old json.new (reply_data (Reply.NumArgs want got)) }
{
    let text = num_args_text(alloc, want, got)?;
    write_count_error(json, "num_args", want, got, text.as_str())
}

/// Returns the text of an error about the number of destinations.
fn dest_count_text(alloc: Global, want: u32, got: u32) -> Result<String, AllocError>
    ensures { IfOk result (λ s. string_bytes s ≡ dest_count_text want got) }
{
    format!(in alloc; "sql: expected {want} destination arguments in Scan, not {got}")
}

/// Writes the error for a wrong number of destinations.
fn write_dest_count(alloc: Global, json: &mut Writer, want: u32, got: u32) -> Result<(), AllocError>
    ensures { Spells result json.old json.new (reply_data (Reply.DestCount want got)) }
{
    let text = dest_count_text(alloc, want, got)?;
    write_count_error(json, "dest_count", want, got, text.as_str())
}

/// Returns the word for why a value can't be scanned.
fn word_of(fault: FaultWord) -> &'static str
    ensures { result.now ≡ fault_word fault }
{
    match fault {
        FaultWord::FromNull => "from_null",
        FaultWord::NotANumber => "not_a_number",
        FaultWord::OutOfRange => "out_of_range",
        FaultWord::NotABool => "not_a_bool",
        FaultWord::NotUtf8 => "not_utf8",
        FaultWord::Unsupported => "unsupported",
    }
}

/// Returns the text that says which column can't be scanned, and why.
fn scan_text(alloc: Global, column: u32, fault: FaultWord) -> Result<String, AllocError>
    ensures { IfOk result (λ s. string_bytes s ≡ scan_text column fault) }
{
    let word = word_of(fault);
    format!(in alloc; "sql: scan of column {column}: {word}")
}

/// Writes the error for a column that can't be scanned.
fn write_scan(
    alloc: Global,
    json: &mut Writer,
    column: u32,
    fault: FaultWord,
) -> Result<(), AllocError>
    ensures { Spells result json.old json.new (reply_data (Reply.Scan column fault)) }
{
    let text = scan_text(alloc, column, fault)?;
    begin_error(json, "scan")?;
    write_natural(json, u64::from(column))?;
    json.string(word_of(fault))?;
    end_error(json, text.as_str())
}

/// Writes the error for a number whose highest bit is set.
fn write_high_bit(json: &mut Writer, number: u64) -> Result<(), AllocError>
    ensures { Spells result json.old json.new (reply_data (Reply.HighBit number)) }
{
    let text = "sql: unsigned value has its high bit set";
    write_error_at(json, "high_bit", number, text)
}

/// Writes the error for an argument with a name if the driver takes none.
fn write_named(json: &mut Writer, name: &str) -> Result<(), AllocError>
    ensures { Spells result json.old json.new (reply_data (Reply.NamedRefused name.now)) }
{
    let text = "sql: driver does not support the use of Named Parameters";
    write_error_of(json, "named", name, text)
}

/// Writes the error for a name that an argument can't have.
fn write_bad_name(json: &mut Writer, name: &str) -> Result<(), AllocError>
    ensures { Spells result json.old json.new (reply_data (Reply.BadName name.now)) }
{
    let text = "sql: name does not begin with a letter";
    write_error_of(json, "bad_name", name, text)
}

/// Writes the error for a label that no rows and no transaction got.
fn write_absent(json: &mut Writer, label: &str) -> Result<(), AllocError>
    ensures { Spells result json.old json.new (reply_data (Reply.Absent label.now)) }
{
    write_error_of(json, "absent", label, "sql: no value has this label")
}

/// Returns the word for why a token is cancelled.
fn cancel_word(cause: Cause) -> &'static str
    ensures { result.now ≡ cancel_word cause }
{
    match cause {
        Cause::Canceled => "canceled",
        Cause::Deadline => "deadline",
    }
}

/// Returns the word for what ended rows.
fn over_word(over: RowsOver) -> &'static str
    ensures { result.now ≡ over_word over }
{
    match over {
        RowsOver::Close => "close",
        RowsOver::EndOfRows => "end_of_rows",
        RowsOver::TxEnded => "tx",
        RowsOver::Cancel(cause) => cancel_word(cause),
        RowsOver::Failed => "failed",
        RowsOver::BadConn => "bad",
        RowsOver::EndOfRun => "end",
    }
}

/// Writes the error for rows that have ended.
fn write_closed(json: &mut Writer, over: RowsOver) -> Result<(), AllocError>
    ensures { Spells result json.old json.new (reply_data (Reply.RowsClosed over)) }
{
    write_error_of(json, "rows_closed", over_word(over), "sql: Rows are closed")
}

/// Returns the word for what ended a transaction.
fn tx_end_word(end: TxEnd) -> &'static str
    ensures { result.now ≡ tx_end_word end }
{
    match end {
        TxEnd::Commit => "commit",
        TxEnd::Rollback => "rollback",
        TxEnd::Cancel(cause) => cancel_word(cause),
        TxEnd::EndOfRun => "end",
    }
}

/// Writes the error for a transaction that has ended.
fn write_tx_done(json: &mut Writer, by: TxEnd) -> Result<(), AllocError>
    ensures { Spells result json.old json.new (reply_data (Reply.TxDone by)) }
{
    let text = "sql: transaction has already been committed or rolled back";
    write_error_of(json, "tx_done", tx_end_word(by), text)
}

/// Writes the error for an isolation level if the driver has only the default one.
fn write_isolation(json: &mut Writer, level: Level) -> Result<(), AllocError>
    ensures { Spells result json.old json.new (reply_data (Reply.Isolation level)) }
{
    let text = "sql: driver does not support non-default isolation level";
    write_error_of(json, "isolation", level_word(level), text)
}

/// Writes the error for a read-only transaction if the driver begins none.
fn write_read_only(json: &mut Writer) -> Result<(), AllocError>
    ensures { Spells result json.old json.new (reply_data Reply.ReadOnly) }
{
    let text = "sql: driver does not support read-only transactions";
    write_error(json, "read_only", text)
}

/// Writes the error for a connection that was bad in each of so many tries.
fn write_bad_conn(json: &mut Writer, tries: u32) -> Result<(), AllocError>
    ensures { Spells result json.old json.new (reply_data (Reply.BadConn tries)) }
{
    let tries = u64::from(tries);
    write_error_at(json, "bad_conn", tries, "driver: bad connection")
}

/// Writes the error for one connection more than may be open at all.
fn write_too_many(json: &mut Writer) -> Result<(), AllocError>
    ensures { Spells result json.old json.new (reply_data Reply.TooMany) }
{
    write_error_at(
        json,
        "too_many",
        MOST_SHOWN,
        "sql: too many open connections",
    )
}

/// Returns the word for what closed the database.
fn db_end_word(end: DbEnd) -> &'static str
    ensures { result.now ≡ db_end_word end }
{
    match end {
        DbEnd::Close => "close",
        DbEnd::EndOfRun => "end",
    }
}

/// Writes the error for a closed database.
fn write_db_closed(json: &mut Writer, end: DbEnd) -> Result<(), AllocError>
    ensures { Spells result json.old json.new (reply_data (Reply.DbClosed end)) }
{
    write_error_of(
        json,
        "db_closed",
        db_end_word(end),
        "sql: database is closed",
    )
}

/// Begins a successful reply with the word for what it holds.
fn begin_ok(json: &mut Writer, word: &str) -> Result<(), AllocError>
    ensures { Adds result json.old json.new
        (begin_array ∷ text_token (codes "ok") ∷ text_token word.now ∷ []) }
{
    begin(json, "ok")?;
    json.string(word)
}

/// Writes the two numbers of an exec that was carried out.
fn write_result(json: &mut Writer, last: i64, affected: i64) -> Result<(), AllocError>
    ensures { Spells result json.old json.new (reply_data (Reply.Result last affected)) }
{
    begin_ok(json, "result")?;
    write_integer(json, last)?;
    write_integer(json, affected)?;
    json.end_array()
}

/// Writes the names of the columns of rows that are handed out.
fn write_rows(json: &mut Writer, columns: &[Txt]) -> Result<(), AllocError>
    ensures { Spells result json.old json.new
        (worded (codes "ok") (string (codes "rows") ∷ texts_data columns.now ∷ [])) }
{
    begin_ok(json, "rows")?;
    write_texts(json, columns)?;
    json.end_array()
}

/// Writes whether there was a row.
fn write_truth(json: &mut Writer, truth: bool) -> Result<(), AllocError>
    ensures { Spells result json.old json.new (reply_data (Reply.Truth truth)) }
{
    begin(json, "ok")?;
    json.boolean(truth)?;
    json.end_array()
}

/// Writes what the destinations of a row hold.
fn write_scanned(alloc: Global, json: &mut Writer, cells: &[Cell]) -> Result<(), AllocError>
    ensures { Spells result json.old json.new
        (worded (codes "ok") (string (codes "cells") ∷ cells_data cells.now ∷ [])) }
{
    begin_ok(json, "cells")?;
    write_cells(alloc, json, cells)?;
    json.end_array()
}

/// Writes numbers as an array, in order.
#[tactic(auto, using(dsql_script_spelling::proofs::Spelled::spelled))]
fn write_numbers(json: &mut Writer, numbers: &[u64]) -> Result<(), AllocError>
    ensures { Spells result json.old json.new (list_data (map natural numbers.now)) }
{
    json.begin_array()?;
    for number in numbers {
        write_natural(json, *number)?;
    }
    json.end_array()
}

/// Writes the reply with statistics that are these numbers.
fn write_counted(json: &mut Writer, numbers: &[u64]) -> Result<(), AllocError>
    ensures { Spells result json.old json.new (worded (codes "ok")
        (string (codes "stats") ∷ list_data (map natural numbers.now) ∷ [])) }
{
    begin_ok(json, "stats")?;
    write_numbers(json, numbers)?;
    json.end_array()
}

/// Returns the numbers of a pool's statistics, in the order of Go's `DBStats`.
fn numbers_of(stats: &Stats) -> [u64; 9]
    ensures { result ≡ numbers_of stats.now }
{
    [
        stats.max_open_connections,
        stats.open_connections,
        stats.in_use,
        stats.idle,
        stats.wait_count,
        stats.wait_duration,
        stats.max_idle_closed,
        stats.max_idle_time_closed,
        stats.max_lifetime_closed,
    ]
}

/// Writes a pool's statistics.
fn write_stats(json: &mut Writer, stats: &Stats) -> Result<(), AllocError>
    ensures { Spells result json.old json.new (reply_data (Reply.Stats stats.now)) }
{
    let numbers = numbers_of(stats);
    write_counted(json, &numbers)
}

/// Writes a reply: `ok` and what it holds, or `err`, the error's code, its numbers, its name or its cause, and
/// its text.
pub fn write_reply(alloc: Global, json: &mut Writer, reply: &Reply) -> Result<(), AllocError>
    ensures { Spells result json.old json.new (reply_data reply.now) }
{
    match reply {
        Reply::Ok => write_word(json, "ok"),
        Reply::Result { last, affected } => write_result(json, *last, *affected),
        Reply::Rows(columns) => write_rows(json, columns.as_slice()),
        Reply::Truth(truth) => write_truth(json, *truth),
        Reply::Cells(cells) => write_scanned(alloc, json, cells.as_slice()),
        Reply::Driver(text) => write_error(json, "driver", text.as_str()),
        Reply::BadConn(tries) => write_bad_conn(json, *tries),
        Reply::NumArgs { want, got } => write_num_args(alloc, json, *want, *got),
        Reply::HighBit(number) => write_high_bit(json, *number),
        Reply::NamedRefused(name) => write_named(json, name.as_str()),
        Reply::BadName(name) => write_bad_name(json, name.as_str()),
        Reply::Absent(label) => write_absent(json, label.as_str()),
        Reply::TxDone(by) => write_tx_done(json, *by),
        Reply::RowsClosed(over) => write_closed(json, *over),
        Reply::Isolation(level) => write_isolation(json, *level),
        Reply::ReadOnly => write_read_only(json),
        Reply::NoNextYet => write_error(json, "no_next", "sql: Scan called without calling Next"),
        Reply::NoRows => write_error(json, "no_rows", "sql: no rows in result set"),
        Reply::DestCount { want, got } => write_dest_count(alloc, json, *want, *got),
        Reply::Scan { column, fault } => write_scan(alloc, json, *column, *fault),
        Reply::TooMany => write_too_many(json),
        Reply::DbClosed(end) => write_db_closed(json, *end),
        Reply::Stats(stats) => write_stats(json, stats),
    }
}

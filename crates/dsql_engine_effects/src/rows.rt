//! What calls and answers do to the rows.
ghost use Rattle.std.specs.Prelude.{◌≡◌, ◌+◌, ◌<◌, ◌≤◌, true, false, ◌&&◌, vec_len, vec_capacity};
ghost use Rattle.dsql_history.specs.driver.declared.answer.DriverAnswer.TheVariants.{Row};
ghost use Rattle.dsql_history.specs.numbered.Numbered.{changed};
ghost use Rattle.dsql_history.specs.rows.OpenRows.{was_made, rows_of, ended_by};
ghost use Rattle.dsql_history.specs.Readers.HandedOut.{fetched, live};
ghost use Rattle.dsql_engine_effects.specs.Heard.{is_end, HearsRows, are_late, calls_after, ended_for, made_by, rows_after};
ghost use Rattle.dsql_engine_effects.specs.Starts.{AreMade, closed_rows, closed_by};
ghost use Rattle.dsql_engine_calls.specs.Calls.{row_at};

use dsql_engine_calls::CallRow;
use dsql_history::{
    DriverAnswer, DriverCall, Entry, RowsEnd, RowsTable, Scope, Task, Txs, Values, Work,
};

/// Ends the rows of a query for a call, if one is named.
pub fn close_rows(calls: &mut Vec<CallRow>, rows: &mut RowsTable, closes: Option<u32>, call: u32)
    requires { AreMade closes rows.old.rows }
    ensures calls { calls.new.items ≡ closed_by closes call rows.old.rows calls.old.items }
    ensures len { vec_len calls.new ≡ vec_len calls.old }
    ensures capacity { vec_capacity calls.new ≡ vec_capacity calls.old }
    ensures rows { rows.new.rows ≡ closed_rows closes rows.old.rows }
    ensures spare { rows.new.spare ≡ rows.old.spare }
{
    if let Some(query) = closes {
        let ended = end_rows(rows, query, RowsEnd::Close);
        note_end(calls, ended, query, call);
    }
}

/// Records what the answer to a Query or a Next does to the rows, given these transactions. `copy` is a copy of
/// the entry's answer.
pub fn note_rows(
    calls: &mut Vec<CallRow>,
    rows: &mut RowsTable,
    txs: &Txs,
    entry: &Entry,
    copy: DriverAnswer,
)
    requires rows { HearsRows
        (row_at calls.old.items entry.now.call_no).work entry.now.call_no entry.now.call rows.old.rows }
    requires room { 0 < rows.old.spare }
    ensures calls { calls.new.items ≡ calls_after
        (row_at calls.old.items entry.now.call_no).work entry.now.call_no entry.now.call copy rows.old.rows
        calls.old.items }
    ensures len { vec_len calls.new ≡ vec_len calls.old }
    ensures capacity { vec_capacity calls.new ≡ vec_capacity calls.old }
    ensures rows { rows.new.rows ≡ rows_after txs.now.txs
        (row_at calls.old.items entry.now.call_no).work entry.now.call_no entry.now.call copy rows.old.rows }
    ensures spare { rows.old.spare ≤ rows.new.spare + 1 }
{
    let Some(row) = calls.get(entry.call_no as usize) else {
        return;
    };
    match (&row.work, &entry.call) {
        (Work::Statement(it, Task::HandOut(_)), DriverCall::Query(_, _)) => {
            let late = are_late(txs, *it);
            make_rows(rows, late, entry.call_no, copy);
        }
        (Work::Fetch(query), DriverCall::Next(_)) => {
            let query = *query;
            let ended = fetch_rows(rows, query, copy);
            note_end(calls, ended, query, entry.call_no);
        }
        _ => {}
    }
}

/// Is true if rows of a call in this scope come too late, because their transaction has ended.
fn are_late(txs: &Txs, it: Scope) -> bool
    ensures { result ≡ are_late txs.now.txs it }
{
    match it {
        Scope::Db => false,
        Scope::Held(tx) => txs.was_made(tx) && txs.admit(tx).is_err(),
    }
}

/// Records the call that ended rows, if it did.
pub(crate) fn note_end(calls: &mut Vec<CallRow>, ended: bool, query: u32, call: u32)
    ensures items { calls.new.items ≡ ended_for ended query call calls.old.items }
    ensures len { vec_len calls.new ≡ vec_len calls.old }
    ensures capacity { vec_capacity calls.new ≡ vec_capacity calls.old }
{
    let query = query as usize;
    if ended && query < calls.len() {
        calls[query].ender = call;
    }
}

/// Makes the rows of a query if its answer is their cursor. Rows that come too late are ended at once.
fn make_rows(rows: &mut RowsTable, late: bool, query: u32, answer: DriverAnswer)
    requires new { was_made query rows.old.rows ≡ false }
    requires room { 0 < rows.old.spare }
    ensures rows { rows.new.rows ≡ made_by late query answer rows.old.rows }
    ensures spare { rows.old.spare ≤ rows.new.spare + 1 }
{
    if let DriverAnswer::Cursor {
        rows: cursor,
        columns,
    } = answer
    {
        match rows.begin_rows(query, cursor, columns) {
            Ok(()) => {}
            Err(_) => unreachable!(),
        }
        if late {
            rows.close(query, RowsEnd::TxEnded);
        }
    }
}

/// Applies the answer to a fetch to rows. A row becomes the current one. The end of the rows, a failure or a
/// bad connection ends them. Rows that something has ended meanwhile stay as they are. Returns `true` if this
/// ended them.
fn fetch_rows(rows: &mut RowsTable, query: u32, answer: DriverAnswer) -> bool
    requires { was_made query rows.old.rows ≡ true }
    ensures ended { result ≡ (live (rows_of query rows.old.rows) && is_end answer) }
    ensures rows { rows.new.rows ≡ changed (fetched answer) query rows.old.rows }
    ensures spare { rows.new.spare ≡ rows.old.spare }
{
    match answer {
        DriverAnswer::Row(values) => {
            show_row(rows, query, values);
            false
        }
        DriverAnswer::End => end_rows(rows, query, RowsEnd::EndOfRows),
        DriverAnswer::Fail(text) => end_rows(rows, query, RowsEnd::Failed(text)),
        DriverAnswer::Bad => end_rows(rows, query, RowsEnd::BadConn),
        _ => false,
    }
}

/// Ends rows if nothing has ended them. Returns `true` if it did.
fn end_rows(rows: &mut RowsTable, query: u32, by: RowsEnd) -> bool
    requires { was_made query rows.old.rows ≡ true }
    ensures ended { result ≡ live (rows_of query rows.old.rows) }
    ensures rows { rows.new.rows ≡ changed (ended_by by) query rows.old.rows }
    ensures spare { rows.new.spare ≡ rows.old.spare }
{
    rows.close(query, by)
}

/// Makes the values the current row, if nothing has ended the rows.
fn show_row(rows: &mut RowsTable, query: u32, values: Values)
    requires { was_made query rows.old.rows ≡ true }
    ensures rows { rows.new.rows ≡ changed (fetched (Row values)) query rows.old.rows }
    ensures spare { rows.new.spare ≡ rows.old.spare }
{
    match rows.row(query, values) {
        Ok(()) => {}
        Err(_) => {}
    }
}

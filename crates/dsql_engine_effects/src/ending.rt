//! What the end of a transaction, and the end of the run, do to the calls, the rows and the transactions.
ghost use Rattle.std.specs.Prelude.{◌≡◌, ◌&&◌, vec_len, vec_capacity};
ghost use Rattle.dsql_history.specs.numbered.Numbered.{thing_of, all_changed, changed};
ghost use Rattle.dsql_history.specs.rows.declared.end.RowsEnd.TheVariants as rows_ends;
ghost use Rattle.dsql_history.specs.rows.OpenRows.{ended_by, rows_of};
ghost use Rattle.dsql_history.specs.tx.declared.end.TxEnd.TheVariants as tx_ends;
ghost use Rattle.dsql_history.specs.tx.Transactions as transactions;
ghost use Rattle.dsql_history.specs.Readers.HandedOut.{live};
ghost use Rattle.dsql_engine_calls.specs.Calls.{row_at};
ghost use Rattle.dsql_history.specs.Readers.Works.{hands_out_in};
ghost use Rattle.dsql_engine_effects.specs.Ended.{calls_ended, calls_with_end, ended_if, going, numbered, rows_ended, rows_with_end, tx_ended_for, txs_with_end, works_inside, works_of};
ghost use Rattle.dsql_engine_effects.specs.Heard.{ended_for};

use crate::rows::note_end;
use dsql_engine_calls::row::{hands_out_in, scope_of};
use dsql_engine_calls::{CallRow, Ending};
use dsql_history::{RowsEnd, RowsTable, Scope, TxEnd, Txs};

/// Ends a transaction and its rows, if one is named, and records that this call ended them.
pub fn end_tx(
    calls: &mut Vec<CallRow>,
    rows: &mut RowsTable,
    txs: &mut Txs,
    ends: Option<Ending>,
    call: u32,
)
    ensures calls { calls.new.items ≡ calls_with_end ends call txs.old.txs rows.old.rows calls.old.items }
    ensures len { vec_len calls.new ≡ vec_len calls.old }
    ensures capacity { vec_capacity calls.new ≡ vec_capacity calls.old }
    ensures rows { rows.new.rows ≡ rows_with_end ends (works_of calls.old.items) rows.old.rows }
    ensures spare { rows.new.spare ≡ rows.old.spare }
    ensures txs { txs.new.txs ≡ txs_with_end ends txs.old.txs }
    ensures tx_spare { txs.new.spare ≡ txs.old.spare }
{
    if let Some(it) = ends {
        let ended = end_alone(txs, it.tx, it.by);
        note_tx_end(calls, ended, it.tx, call);
        end_rows_in(calls, rows, it.tx, call);
    }
}

/// Ends a transaction if one was begun and nothing has ended it. Returns `true` if it did.
fn end_alone(txs: &mut Txs, tx: u32, by: TxEnd) -> bool
    ensures ended { result ≡ going (thing_of tx txs.old.txs) }
    ensures txs { txs.new.txs ≡ changed (transactions.ended_by by) tx txs.old.txs }
    ensures spare { txs.new.spare ≡ txs.old.spare }
{
    txs.was_made(tx) && txs.end(tx, by).is_ok()
}

/// Records the call that ended a transaction, if it did.
fn note_tx_end(calls: &mut Vec<CallRow>, ended: bool, tx: u32, call: u32)
    ensures items { calls.new.items ≡ tx_ended_for ended tx call calls.old.items }
    ensures len { vec_len calls.new ≡ vec_len calls.old }
    ensures capacity { vec_capacity calls.new ≡ vec_capacity calls.old }
{
    let tx = tx as usize;
    if ended && tx < calls.len() {
        calls[tx].tx_ender = call;
    }
}

/// Ends the rows of a transaction for a call: the rows of queries that came after the transaction was begun.
fn end_rows_in(calls: &mut Vec<CallRow>, rows: &mut RowsTable, tx: u32, call: u32)
    ensures calls { calls.new.items ≡ calls_ended (hands_out_in tx) tx (works_of calls.old.items) call rows.old.rows
        (numbered (works_of calls.old.items)) calls.old.items }
    ensures len { vec_len calls.new ≡ vec_len calls.old }
    ensures capacity { vec_capacity calls.new ≡ vec_capacity calls.old }
    ensures rows { rows.new.rows ≡ rows_ended (hands_out_in tx) tx (works_of calls.old.items)
        (numbered (works_of calls.old.items)) rows.old.rows }
    ensures spare { rows.new.spare ≡ rows.old.spare }
{
    for query in tx..numbered(calls) {
        end_rows_of(calls, rows, tx, query, call);
    }
}

/// Ends the rows of a query for a call, if the query has handed them out in this transaction.
fn end_rows_of(calls: &mut Vec<CallRow>, rows: &mut RowsTable, tx: u32, query: u32, call: u32)
    ensures calls { calls.new.items ≡ ended_for (hands_out_in tx (row_at calls.old.items query).work
        && live (rows_of query rows.old.rows)) query call calls.old.items }
    ensures len { vec_len calls.new ≡ vec_len calls.old }
    ensures capacity { vec_capacity calls.new ≡ vec_capacity calls.old }
    ensures rows { rows.new.rows ≡ ended_if (hands_out_in tx (row_at calls.old.items query).work) query rows.old.rows }
    ensures spare { rows.new.spare ≡ rows.old.spare }
{
    if hands_out_in(calls, query, tx) {
        let ended = end_made(rows, query);
        note_end(calls, ended, query, call);
    }
}

/// Ends rows with their transaction if they were made and nothing has ended them. Returns `true` if it did.
fn end_made(rows: &mut RowsTable, query: u32) -> bool
    ensures ended { result ≡ live (rows_of query rows.old.rows) }
    ensures rows { rows.new.rows ≡ changed (ended_by rows_ends.TxEnded) query rows.old.rows }
    ensures spare { rows.new.spare ≡ rows.old.spare }
{
    rows.was_made(query) && rows.close(query, RowsEnd::TxEnded)
}

/// Returns how many calls have a number.
pub fn numbered(calls: &Vec<CallRow>) -> u32
    ensures { result ≡ numbered (works_of calls.now.items) }
{
    u32::try_from(calls.len()).unwrap_or(u32::MAX)
}

/// Ends the transactions with their rows, and all other rows, as the run ends.
pub fn end_run(calls: &Vec<CallRow>, rows: &mut RowsTable, txs: &mut Txs)
    ensures rows { rows.new.rows ≡ all_changed (ended_by rows_ends.EndOfRun)
        (rows_ended works_inside 0 (works_of calls.now.items)
        (numbered (works_of calls.now.items)) rows.old.rows) }
    ensures spare { rows.new.spare ≡ rows.old.spare }
    ensures txs { txs.new.txs ≡ all_changed (transactions.ended_by tx_ends.EndOfRun) txs.old.txs }
    ensures tx_spare { txs.new.spare ≡ txs.old.spare }
{
    for query in 0..numbered(calls) {
        end_inside(calls, rows, query);
    }
    rows.close_all();
    txs.end_all();
}

/// Ends the rows of a query, if the query has handed them out in a transaction.
fn end_inside(calls: &Vec<CallRow>, rows: &mut RowsTable, query: u32)
    ensures rows { rows.new.rows ≡ ended_if (works_inside (row_at calls.now.items query).work) query rows.old.rows }
    ensures spare { rows.new.spare ≡ rows.old.spare }
{
    if let Scope::Held(_) = scope_of(calls, query) {
        end_made(rows, query);
    }
}

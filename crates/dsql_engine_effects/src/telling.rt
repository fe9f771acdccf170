//! Records an answer for its call, the rows and the transactions.
ghost use Rattle.std.specs.Prelude.{◌≡◌, ◌+◌, ◌<◌, ◌≤◌, ℕ, true, false, List, vec_len, vec_capacity};
ghost use Rattle.dsql_engine_calls.specs.Tried.{number};
ghost use Rattle.dsql_history.specs.driver.declared.call.DriverCall.TheVariants.{Prepare};
ghost use Rattle.dsql_engine_effects.specs.Heard.{is_fetch_or_query, Decides, HearsBegin, HearsRows, calls_after, calls_told, deciding, decided_as, rows_after, tries_after};
ghost use Rattle.dsql_engine_calls.specs.Calls.{row_at};
ghost use Rattle.dsql_history.specs.declared.work.Work.{Work};
ghost use Rattle.dsql_history.specs.Readers.Decisions.{close_decision, closing_decision};
ghost use Rattle.dsql_history.specs.Readers.Transactions.{tx_heard};
ghost use Rattle.dsql_history.specs.Readers.Tries.{is_tried, loses};

use crate::rows::note_rows;
use dsql_engine_calls::replies::{bad_reply, begin_reply, count_reply, done_reply, reply_of};
use dsql_engine_calls::works::tries_again;
use dsql_engine_calls::{CallRow, Tried};
use dsql_history::{
    CallRecord, DriverAnswer, DriverCall, Entry, Reply, RowsTable, Task, Txs, Work,
};

/// Records the answer of an entry for its call, the rows and the transactions. `copy` is a copy of the entry's
/// answer, and `reply` is what the answer to a Query or a Next decides.
#[tactic(auto, using(crate::proofs::Beside::rows_beside, crate::proofs::Beside::calls_beside))]
pub fn tell_answer(
    calls: &mut Vec<CallRow>,
    rows: &mut RowsTable,
    txs: &mut Txs,
    entry: &Entry,
    copy: DriverAnswer,
    reply: Option<Reply>,
)
    requires decides { Decides (number (row_at calls.old.items entry.now.call_no).tried)
        (row_at calls.old.items entry.now.call_no).work entry.now copy reply }
    requires rows { HearsRows
        (row_at calls.old.items entry.now.call_no).work entry.now.call_no entry.now.call rows.old.rows }
    requires begin { HearsBegin entry.now.call_no entry.now.call txs.old.txs }
    requires room { 0 < rows.old.spare }
    requires tx_room { 0 < txs.old.spare }
    ensures items { calls.new.items ≡ calls_after
        (row_at calls.old.items entry.now.call_no).work entry.now.call_no entry.now.call entry.now.answer
        rows.old.rows (calls_told (number (row_at calls.old.items entry.now.call_no).tried)
        (row_at calls.old.items entry.now.call_no).work entry.now calls.old.items) }
    ensures len { vec_len calls.new ≡ vec_len calls.old }
    ensures capacity { vec_capacity calls.new ≡ vec_capacity calls.old }
    ensures rows { rows.new.rows ≡ rows_after txs.old.txs
        (row_at calls.old.items entry.now.call_no).work entry.now.call_no entry.now.call entry.now.answer
        rows.old.rows }
    ensures spare { rows.old.spare ≤ rows.new.spare + 1 }
    ensures txs { txs.new.txs ≡ tx_heard entry.now txs.old.txs }
    ensures tx_spare { txs.old.spare ≤ txs.new.spare + 1 }
{
    match &entry.call {
        DriverCall::Query(_, _) | DriverCall::Next(_) => {
            decide(calls, entry, reply);
            note_rows(calls, rows, txs, entry, copy);
        }
        _ => {
            note_begin(txs, entry);
            tell_entry(calls, entry, copy);
        }
    }
}

/// Records the transaction that a Begin has begun.
fn note_begin(txs: &mut Txs, entry: &Entry)
    requires begin { HearsBegin entry.now.call_no entry.now.call txs.old.txs }
    requires room { 0 < txs.old.spare }
    ensures txs { txs.new.txs ≡ tx_heard entry.now txs.old.txs }
    ensures spare { txs.old.spare ≤ txs.new.spare + 1 }
{
    if let (DriverCall::Begin { .. }, DriverAnswer::Done) = (&entry.call, &entry.answer) {
        match txs.begun(entry.call_no, entry.conn, entry.tenure, None) {
            Ok(()) => {}
            Err(_) => unreachable!(),
        }
    }
}

/// Records what is decided for the call of a Query or a Next. There is no call 0.
fn decide(calls: &mut Vec<CallRow>, entry: &Entry, reply: Option<Reply>)
    requires decides { Decides (number (row_at calls.old.items entry.now.call_no).tried)
        (row_at calls.old.items entry.now.call_no).work entry.now entry.now.answer reply }
    requires query { is_fetch_or_query entry.now.call ≡ true }
    ensures items { calls.new.items ≡ calls_told (number (row_at calls.old.items entry.now.call_no).tried)
        (row_at calls.old.items entry.now.call_no).work entry.now calls.old.items }
    ensures len { vec_len calls.new ≡ vec_len calls.old }
    ensures capacity { vec_capacity calls.new ≡ vec_capacity calls.old }
{
    let call = entry.call_no as usize;
    if call != 0 && call < calls.len() {
        let row = &mut calls[call];
        row.call.decided = reply;
        tell_try(&mut row.tried, &row.work, entry);
    }
}

/// Records for the call of an entry, which is no Query and no Next, what the driver answered. `copy` is a copy
/// of the entry's answer. There is no call 0.
fn tell_entry(calls: &mut Vec<CallRow>, entry: &Entry, copy: DriverAnswer)
    requires other { is_fetch_or_query entry.now.call ≡ false }
    requires same { copy ≡ entry.now.answer }
    ensures items { calls.new.items ≡ calls_told (number (row_at calls.old.items entry.now.call_no).tried)
        (row_at calls.old.items entry.now.call_no).work entry.now calls.old.items }
    ensures len { vec_len calls.new ≡ vec_len calls.old }
    ensures capacity { vec_capacity calls.new ≡ vec_capacity calls.old }
{
    let call = entry.call_no as usize;
    if call != 0 && call < calls.len() {
        let row = &mut calls[call];
        let number = row.tried.number();
        let again = tries_again(&row.work, number);
        tell(&mut row.call, again, number, &row.work, &entry.call, copy);
        tell_try(&mut row.tried, &row.work, entry);
    }
}

/// Records in the tries of a call with this work what the driver answered to one of its driver calls.
fn tell_try(tried: &mut Tried, work: &Work, entry: &Entry)
    ensures { tried.new ≡ tries_after work.now entry.now tried.old }
{
    if loses(work, entry) {
        tried.lose();
    }
}

/// Is true if the answer says that the connection of this try is bad, and the driver call may be sent again.
fn loses(work: &Work, entry: &Entry) -> bool
    ensures { result ≡ loses work.now entry.now }
{
    is_tried(work, &entry.call) && matches!(&entry.answer, DriverAnswer::Bad)
}

/// Is true if a call with this work sends this driver call before anything is decided, and may send it again.
fn is_tried(work: &Work, call: &DriverCall) -> bool
    ensures { result ≡ is_tried work.now call.now }
{
    match call {
        DriverCall::Reset
        | DriverCall::Prepare(_)
        | DriverCall::Exec(_, _)
        | DriverCall::Query(_, _)
        | DriverCall::Begin { .. } => true,
        DriverCall::Next(_) => matches!(work, Work::Statement(_, Task::ReadOne(_))),
        _ => false,
    }
}

/// Records for a call with this work what the driver answered to one of its driver calls in this try. That call
/// is no Query and no Next. `again` says whether another try may follow.
fn tell(
    it: &mut CallRecord,
    again: bool,
    number: u32,
    work: &Work,
    asked: &DriverCall,
    answer: DriverAnswer,
)
    requires other { is_fetch_or_query asked.now ≡ false }
    ensures { it.new ≡ deciding again number work.now asked.now answer it.old }
{
    match asked {
        DriverCall::Exec(_, _) => it.decided = reply_of(again, number, answer),
        DriverCall::Begin { .. } => it.decided = begin_reply(again, number, answer),
        DriverCall::Ping | DriverCall::Commit | DriverCall::Rollback => {
            it.decided = done_reply(number, answer);
        }
        DriverCall::CloseRows(_) => tell_closing(it, number, work, answer),
        DriverCall::Prepare(_) => tell_prepare(it, again, number, answer),
        DriverCall::Reset => {
            if let DriverAnswer::Bad = answer {
                it.decided = bad_reply(again, number);
            }
        }
        _ => {}
    }
}

/// Records for a call what the driver answered to its CloseRows in this try.
fn tell_closing(it: &mut CallRecord, number: u32, work: &Work, answer: DriverAnswer)
    ensures { it.new ≡ decided_as (close_decision number work.now answer it.old.decided) it.old }
{
    match work {
        Work::Close(_) => it.decided = done_reply(number, answer),
        _ => tell_closing_of_row(it, number, answer),
    }
}

/// Records for a call that the cursor of its row was closed. If the close failed, that fault is the reply in
/// place of the row.
#[tactic(auto, using(crate::proofs::Closing::closing_other, crate::proofs::Closing::closing_failed, crate::proofs::Closing::closing_bad, crate::proofs::Closing::closing_well))]
fn tell_closing_of_row(it: &mut CallRecord, number: u32, answer: DriverAnswer)
    ensures { it.new ≡ decided_as (closing_decision number answer it.old.decided) it.old }
{
    if !matches!(&it.decided, Some(Reply::Cells(_))) {
        return;
    }
    match answer {
        DriverAnswer::Fail(text) => it.decided = Some(Reply::Driver(text)),
        DriverAnswer::Bad => it.decided = Some(Reply::BadConn(number)),
        _ => {}
    }
}

/// Records for a call what the driver answered to its Prepare in this try. `again` says whether another try may
/// follow.
fn tell_prepare(it: &mut CallRecord, again: bool, number: u32, answer: DriverAnswer)
    ensures { (work : Work) (text : List ℕ) → it.new ≡ deciding again number work (Prepare text) answer it.old }
{
    match answer {
        DriverAnswer::Prepared { inputs, .. } => {
            it.decided = count_reply(inputs, it.params.as_slice().len());
        }
        _ => it.decided = reply_of(again, number, answer),
    }
}

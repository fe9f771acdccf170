//! Finds the settled replies of calls, and takes them out of the calls' rows.
ghost use Rattle.std.specs.Prelude.{◌≡◌, Some, true, is_some, vec_len, vec_capacity};
ghost use Rattle.dsql_history.specs.Readers.Course.{or_end};
ghost use Rattle.dsql_history.specs.course.Made.{or_else};
ghost use Rattle.dsql_engine_calls.specs.Calls.{row_at, with_row};
ghost use Rattle.dsql_engine_calls.specs.Settling.{replied, settled_in, told_beside, told_by_tries_or_end, told_served, told_trying};
ghost use Rattle.dsql_history.specs.Readers.Works.{scope};

use crate::call::CallRow;
use crate::replies::{bad_reply, reply_of};
use crate::tried::Tried;
use crate::works::{scope, tries_again};
use dsql_history::{DbEnd, Reply, Scope, Try, TxEnd, Work};
use std::mem::replace;

/// Returns what closed the database first, after this end has closed it. `closed_by` is what closed it earlier,
/// if anything did.
pub fn first_end(closed_by: Option<DbEnd>, end: DbEnd) -> Option<DbEnd>
    ensures { result ≡ or_end closed_by end }
{
    match closed_by {
        Some(earlier) => Some(earlier),
        None => Some(end),
    }
}

/// Forgets everything about a call that has its reply.
pub fn forget(calls: &mut Vec<CallRow>, call: u32)
    ensures items { calls.new.items ≡ with_row call replied calls.old.items }
    ensures len { vec_len calls.new ≡ vec_len calls.old }
    ensures capacity { vec_capacity calls.new ≡ vec_capacity calls.old }
{
    let call = call as usize;
    if call < calls.len() {
        let row = &mut calls[call];
        row.call.decided = None;
        row.tried = Tried::new();
    }
}

/// Takes the settled reply out of a call's row. `closed_by` is what closed the database, if it is closed.
/// `ended_by` is what ended the transaction in which the call has still sent nothing, if the call is in one
/// that has ended. `pinger` says whether the driver can ping.
pub fn take_reply(
    calls: &mut Vec<CallRow>,
    call: u32,
    closed_by: Option<DbEnd>,
    ended_by: Option<TxEnd>,
    pinger: bool,
) -> Reply
    requires { is_some (settled_in closed_by ended_by pinger (row_at calls.old.items call)) ≡ true }
    ensures reply { settled_in closed_by ended_by pinger (row_at calls.old.items call) ≡ Some result }
    ensures items { calls.new.items ≡ with_row call replied calls.old.items }
    ensures len { vec_len calls.new ≡ vec_len calls.old }
    ensures capacity { vec_capacity calls.new ≡ vec_capacity calls.old }
{
    let call = call as usize;
    if call < calls.len() {
        if let Some(reply) = take_settled(&mut calls[call], closed_by, ended_by, pinger) {
            return reply;
        }
    }
    unreachable!()
}

fn take_settled(
    row: &mut CallRow,
    closed_by: Option<DbEnd>,
    ended_by: Option<TxEnd>,
    pinger: bool,
) -> Option<Reply>
    ensures reply { result ≡ settled_in closed_by ended_by pinger row.old }
    ensures row { row.new ≡ replied row.old }
{
    let tried = replace(&mut row.tried, Tried::new());
    match row.call.decided.take() {
        Some(reply) => Some(reply),
        None => told_in_row(&row.work, tried, closed_by, ended_by, pinger),
    }
}

/// Returns the reply that others, or the lending of a connection, have settled for a call with this work and
/// these tries.
fn told_in_row(
    work: &Work,
    tried: Tried,
    closed_by: Option<DbEnd>,
    ended_by: Option<TxEnd>,
    pinger: bool,
) -> Option<Reply>
    ensures { result ≡ or_else (told_beside closed_by ended_by work.now tried)
        (told_served pinger work.now tried.newest) }
{
    match (work, &tried.newest) {
        (Work::Fetch(_), _) => Some(Reply::Truth(false)),
        (Work::Close(_), _) => Some(Reply::Ok),
        (Work::End(_) | Work::Look, _) => None,
        (Work::Ping, Some(Try::Served)) if !pinger => Some(Reply::Ok),
        _ => told_by_tries_or_end(work, tried, closed_by, ended_by),
    }
}

/// Returns the reply of a call with this work and these tries, if it is settled. The call works on the
/// database, or in a transaction in which it has sent nothing.
fn told_by_tries_or_end(
    work: &Work,
    tried: Tried,
    closed_by: Option<DbEnd>,
    ended_by: Option<TxEnd>,
) -> Option<Reply>
    ensures { result ≡ told_by_tries_or_end closed_by ended_by work.now tried (scope work.now) }
{
    match scope(work) {
        Scope::Db => told_trying(work, tried, closed_by),
        Scope::Held(_) => ended_by.map(Reply::TxDone),
    }
}

/// Returns the reply of a call with this work and these tries that has no connection, if it is settled.
fn told_trying(work: &Work, tried: Tried, closed_by: Option<DbEnd>) -> Option<Reply>
    ensures { result ≡ told_trying closed_by work.now tried }
{
    if tried.has_another() {
        return closed_by.map(Reply::DbClosed);
    }
    let number = tried.count;
    let again = tries_again(work, number);
    match tried.newest {
        Some(Try::Refused(answer)) => reply_of(again, number, answer),
        Some(Try::Lost) => bad_reply(again, number),
        _ => None,
    }
}

//! Questions about a call, each answered from its row.
ghost use Rattle.std.specs.Prelude.{◌≡◌, ℕ, false, is_some, length};
ghost use Rattle.dsql_engine_calls.specs.Tried.{asks_again, has_another, next_is_last, number};
ghost use Rattle.dsql_history.specs.journal.Kinds.{is_house, number_of};
ghost use Rattle.dsql_engine_calls.specs.Calls.{borrower, borrower_as, options_of, row_at, rows_worked, tx_worked};
ghost use Rattle.dsql_engine_calls.specs.Settling.{told_last, told_served, told_trying};
ghost use Rattle.dsql_history.specs.Readers.Decisions.{reply_to};
ghost use Rattle.dsql_history.specs.Readers.Tries.{tries_again};
ghost use Rattle.dsql_history.specs.Readers.Works.{aim_of, asks, hands_out_in, is_fetch, owner_as, scope};

use crate::call::CallRow;
use crate::tried::Tried;
use crate::works;
use dsql_history::{Aim, DbEnd, DriverAnswer, Level, Owner, Scope, Try, Work};

pub fn client_of(rows: &Vec<CallRow>, call: u32) -> u8
    ensures { result ≡ (row_at rows.now.items call).call.client }
{
    match rows.get(call as usize) {
        Some(row) => row.call.client,
        None => 0,
    }
}

/// Returns how many parameters the call's statement has.
pub fn params_of(rows: &Vec<CallRow>, call: u32) -> usize
    ensures { result ≡ length (row_at rows.now.items call).call.params }
{
    match rows.get(call as usize) {
        Some(row) => row.call.params.as_slice().len(),
        None => 0,
    }
}

/// Returns whether the call has settled its reply.
pub fn has_decided(rows: &Vec<CallRow>, call: u32) -> bool
    ensures { result ≡ is_some (row_at rows.now.items call).call.decided }
{
    match rows.get(call as usize) {
        Some(row) => row.call.decided.is_some(),
        None => false,
    }
}

/// Returns the call that ended the call's rows.
pub fn ender_of(rows: &Vec<CallRow>, call: u32) -> u32
    ensures { result ≡ (row_at rows.now.items call).ender }
{
    match rows.get(call as usize) {
        Some(row) => row.ender,
        None => 0,
    }
}

/// Returns the call that ended the call's transaction.
pub fn tx_ender_of(rows: &Vec<CallRow>, call: u32) -> u32
    ensures { result ≡ (row_at rows.now.items call).tx_ender }
{
    match rows.get(call as usize) {
        Some(row) => row.tx_ender,
        None => 0,
    }
}

/// Returns whether the call fetches a row.
pub fn fetches(rows: &Vec<CallRow>, call: u32) -> bool
    ensures { result ≡ is_fetch (row_at rows.now.items call).work }
{
    match rows.get(call as usize) {
        Some(row) => matches!(row.work, Work::Fetch(_)),
        None => false,
    }
}

/// Returns whether the call asks for a connection of its own.
pub fn asks(rows: &Vec<CallRow>, call: u32) -> bool
    ensures { result ≡ asks (row_at rows.now.items call).work }
{
    match rows.get(call as usize) {
        Some(row) => works::asks(&row.work),
        None => false,
    }
}

/// Returns where the call's statement is carried out. Says nothing about calls on rows or on transactions
/// themselves.
pub fn scope_of(rows: &Vec<CallRow>, call: u32) -> Scope
    ensures { result ≡ scope (row_at rows.now.items call).work }
{
    match rows.get(call as usize) {
        Some(row) => works::scope(&row.work),
        None => Scope::Db,
    }
}

/// Returns the owner of the call's tenures: the transaction that it begins, otherwise the call itself.
pub fn owner_of(rows: &Vec<CallRow>, call: u32) -> Owner
    ensures owner { result ≡ owner_as (row_at rows.now.items call).work call }
    ensures not_the_layer { is_house result ≡ false }
    ensures number { number_of result ≡ call }
{
    match rows.get(call as usize) {
        Some(row) => works::owner_as(&row.work, call),
        None => Owner::Call(call),
    }
}

/// Returns the call to which the connection is lent that the call uses. For rows this is the connection of
/// their query, for a transaction that of the call that began it.
pub fn borrower_of(rows: &Vec<CallRow>, call: u32) -> u32
    ensures { result ≡ borrower rows.now.items call }
{
    match rows.get(call as usize) {
        Some(row) => borrower_as(rows, &row.work, call),
        None => call,
    }
}

fn borrower_as(rows: &Vec<CallRow>, work: &Work, call: u32) -> u32
    ensures { result ≡ borrower_as rows.now.items work.now call }
{
    match work {
        Work::Fetch(query) | Work::Close(query) => {
            works::borrower_in(scope_of(rows, *query), *query)
        }
        Work::End(tx) => *tx,
        _ => works::borrower_in(works::scope(work), call),
    }
}

/// Returns whether the call asks again if its connection turns out to be bad in its newest try.
pub fn tries_again(rows: &Vec<CallRow>, call: u32) -> bool
    ensures { result ≡ tries_again (row_at rows.now.items call).work (number (row_at rows.now.items call).tried) }
{
    match rows.get(call as usize) {
        Some(row) => works::tries_again(&row.work, row.tried.number()),
        None => false,
    }
}

/// Returns whether the call hands out rows in that transaction.
pub fn hands_out_in(rows: &Vec<CallRow>, call: u32, tx: u32) -> bool
    ensures { result ≡ hands_out_in tx (row_at rows.now.items call).work }
{
    match rows.get(call as usize) {
        Some(row) => works::hands_out_in(tx, &row.work),
        None => false,
    }
}

/// Returns the call on whose rows the call works, if it works on rows.
pub fn rows_worked(rows: &Vec<CallRow>, call: u32) -> Option<u32>
    ensures { result ≡ rows_worked (row_at rows.now.items call).work }
{
    match rows.get(call as usize) {
        Some(row) => match &row.work {
            Work::Fetch(query) | Work::Close(query) => Some(*query),
            _ => None,
        },
        None => None,
    }
}

/// Returns the call whose transaction the call ends, if it ends one.
pub fn tx_worked(rows: &Vec<CallRow>, call: u32) -> Option<u32>
    ensures { result ≡ tx_worked (row_at rows.now.items call).work }
{
    match rows.get(call as usize) {
        Some(row) => match &row.work {
            Work::End(tx) => Some(*tx),
            _ => None,
        },
        None => None,
    }
}

/// Returns the level of the transaction that the call begins, and whether that transaction only reads. Returns
/// `None` if the call begins none.
pub fn options_of(rows: &Vec<CallRow>, call: u32) -> Option<(Level, bool)>
    ensures { result ≡ options_of (row_at rows.now.items call).work }
{
    match rows.get(call as usize) {
        Some(row) => match &row.work {
            Work::Begin {
                level,
                read_only,
                ..
            } => Some((*level, *read_only)),
            _ => None,
        },
        None => None,
    }
}

/// Returns what the layer does with the call's text.
pub fn aim_of(rows: &Vec<CallRow>, call: u32) -> Aim
    ensures { result ≡ aim_of (row_at rows.now.items call).work }
{
    match rows.get(call as usize) {
        Some(row) => works::aim_of(&row.work),
        None => Aim::Execute,
    }
}

/// Returns whether the call has another try.
pub fn has_another_try(rows: &Vec<CallRow>, call: u32) -> bool
    ensures { result ≡ has_another (row_at rows.now.items call).tried }
{
    match rows.get(call as usize) {
        Some(row) => row.tried.has_another(),
        None => true,
    }
}

/// Returns whether the call's next try is the last.
pub fn asks_last(rows: &Vec<CallRow>, call: u32) -> bool
    ensures { result ≡ next_is_last (row_at rows.now.items call).tried }
{
    match rows.get(call as usize) {
        Some(row) => row.tried.next_is_last(),
        None => false,
    }
}

/// Returns whether a connection that was to be opened for the call was bad, and the call has another try.
pub fn asks_again(rows: &Vec<CallRow>, call: u32) -> bool
    ensures { result ≡ asks_again (row_at rows.now.items call).tried }
{
    match rows.get(call as usize) {
        Some(row) => row.tried.asks_again(),
        None => false,
    }
}

/// Returns whether the call's reply is settled: by what closed the database if the call has another try,
/// otherwise by its newest try.
pub fn is_told_trying(rows: &Vec<CallRow>, call: u32, closed: Option<DbEnd>) -> bool
    ensures { result ≡ is_some (told_trying closed (row_at rows.now.items call).work
        (row_at rows.now.items call).tried) }
{
    match rows.get(call as usize) {
        Some(row) if !row.tried.has_another() => is_told_by(&row.work, &row.tried),
        _ => closed.is_some(),
    }
}

/// Returns whether the lending of a connection to the call has settled its reply.
pub fn is_told_as_lent(rows: &Vec<CallRow>, call: u32, pinger: bool) -> bool
    ensures { result ≡ is_some (told_served pinger (row_at rows.now.items call).work
        (row_at rows.now.items call).tried.newest) }
{
    match rows.get(call as usize) {
        Some(row) => match (&row.work, &row.tried.newest) {
            (Work::Ping, Some(Try::Served)) => !pinger,
            _ => false,
        },
        None => false,
    }
}

/// Returns whether the newest of these tries, which is the last one, gives a call with this work a reply.
fn is_told_by(work: &Work, tried: &Tried) -> bool
    ensures { result ≡ is_some (told_last (tries_again work.now tried.now.count) tried.now.count tried.now.newest) }
{
    match &tried.newest {
        Some(Try::Refused(answer)) => gives_reply(works::tries_again(work, tried.count), answer),
        Some(Try::Lost) => !works::tries_again(work, tried.count),
        _ => false,
    }
}

/// Returns whether the answer gives a reply. `again` says whether another try follows the one that it answers.
fn gives_reply(again: bool, answer: &DriverAnswer) -> bool
    ensures { (number : ℕ) → result ≡ is_some (reply_to again number answer.now) }
{
    match answer {
        DriverAnswer::Result { .. } | DriverAnswer::Fail(_) => true,
        DriverAnswer::Bad => !again,
        _ => false,
    }
}

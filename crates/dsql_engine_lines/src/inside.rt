//! What was heard in the lines of calls in transactions.
ghost use Rattle.std.specs.Prelude.{◌≡◌, ◌==◌, ◌+◌, ◌≤◌, ◌<◌, vec_len, vec_capacity, filter};
ghost use Rattle.std.specs.List.{list_any};
ghost use Rattle.dsql_engine_lines.specs.Inside.{hear_all, hear_in, is_open, line_at, listeners};
ghost use Rattle.dsql_engine_effects.specs.Ended.{works_of};

use dsql_engine_calls::{CallRow, row, works};
use dsql_engine_exchanged::HeardLine;
use dsql_laws_calls::Entry;

/// Adds the call that has sent to the listeners.
pub(crate) fn add_listener(calls: &mut Vec<u32>, call: u32)
    requires { vec_len calls.old < vec_capacity calls.old }
    ensures items { calls.new.items ≡ listeners call calls.old.items }
    ensures len { vec_len calls.new ≤ vec_len calls.old + 1 }
    ensures capacity { vec_capacity calls.new ≡ vec_capacity calls.old }
{
    if !is_among(calls, call) {
        calls.push_reserved(call);
    }
}

fn is_among(calls: &[u32], call: u32) -> bool
    ensures { result ≡ list_any (λ m. m == call) calls.now }
{
    calls.iter().any(|other| *other == call)
}

/// Records an answer for each listener in its transaction, if the answer belongs to the listener's line.
pub(crate) fn hear_all(
    lines: &mut Vec<HeardLine>,
    listeners: &[u32],
    rows: &Vec<CallRow>,
    entry: &Entry,
)
    ensures items { lines.new.items ≡ hear_all (works_of rows.now.items) entry.now listeners.now lines.old.items }
    ensures len { vec_len lines.new ≡ vec_len lines.old }
    ensures capacity { vec_capacity lines.new ≡ vec_capacity lines.old }
{
    for call in listeners {
        hear_in(lines, *call, rows, entry);
    }
}

/// Records an answer for one call, if the call works in the transaction and the answer belongs to its line.
fn hear_in(lines: &mut Vec<HeardLine>, call: u32, rows: &Vec<CallRow>, entry: &Entry)
    ensures items { lines.new.items ≡ hear_in (works_of rows.now.items) entry.now call lines.old.items }
    ensures len { vec_len lines.new ≡ vec_len lines.old }
    ensures capacity { vec_capacity lines.new ≡ vec_capacity lines.old }
{
    let index = call as usize;
    if index < lines.len() && works::is_in(entry.owner.number(), row::scope_of(rows, call)) {
        lines[index].hear_if(call, entry);
    }
}

/// Keeps only the listeners that have a cursor or a handle open.
pub(crate) fn keep_open(listeners: &mut Vec<u32>, lines: &Vec<HeardLine>)
    ensures items { listeners.new.items ≡ filter (λ n. is_open (line_at lines.now.items n)) listeners.old.items }
    ensures len { vec_len listeners.new ≤ vec_len listeners.old }
    ensures capacity { vec_capacity listeners.new ≡ vec_capacity listeners.old }
{
    listeners.retain(|call| is_open(lines, *call));
}

/// Returns whether a call has a cursor or a handle open.
fn is_open(lines: &Vec<HeardLine>, call: u32) -> bool
    ensures { result ≡ is_open (line_at lines.now.items call) }
{
    match lines.get(call as usize) {
        Some(line) => line.cursor.is_some() || line.handle.is_some(),
        None => false,
    }
}

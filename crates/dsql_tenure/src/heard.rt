//! How one more entry changes the tables.
ghost use Rattle.std.specs.Prelude.{◌≡◌, ◌+◌, ◌<◌, ◌≤◌, ◌∷◌, ◌&&◌, not, ◌==◌, vec_len, vec_capacity, map, filter};
ghost use Rattle.dsql_tenure_journal.specs.Readers.{begins};
ghost use Rattle.dsql_tenure.specs.Heard as heard;
ghost use Rattle.dsql_tenure.specs.Open.{open_after};

use dsql_driver::{DriverAnswer, DriverCall};
use dsql_tenure_asked::{Cursor, Handle};
use dsql_tenure_journal::Entry;

/// Returns the handle that the driver answered to a Prepare.
fn prepared_by(entry: &Entry) -> Option<u32>
    ensures { result ≡ heard.prepared_by entry.now.call entry.now.answer }
{
    match (&entry.call, &entry.answer) {
        (DriverCall::Prepare(_), DriverAnswer::Prepared { handle, .. }) => Some(*handle),
        _ => None,
    }
}

/// Returns the handle that is closed.
fn closed_by(entry: &Entry) -> Option<u32>
    ensures { result ≡ heard.closed_by entry.now.call }
{
    match &entry.call {
        DriverCall::CloseStmt(handle) => Some(*handle),
        _ => None,
    }
}

/// Returns the cursor that the driver answered to a Query.
fn opened_by(entry: &Entry) -> Option<u32>
    ensures { result ≡ heard.opened_by entry.now.call entry.now.answer }
{
    match (&entry.call, &entry.answer) {
        (DriverCall::Query(_, _), DriverAnswer::Cursor { rows, .. }) => Some(*rows),
        _ => None,
    }
}

/// Returns the number of columns in an answer.
fn columns_of(answer: &DriverAnswer) -> usize
    ensures { result ≡ heard.columns_of answer.now }
{
    match answer {
        DriverAnswer::Cursor { columns, .. } => columns.as_slice().len(),
        _ => 0,
    }
}

/// Returns the cursor that is closed.
fn freed_by(entry: &Entry) -> Option<u32>
    ensures { result ≡ heard.freed_by entry.now.call }
{
    match &entry.call {
        DriverCall::CloseRows(rows) => Some(*rows),
        _ => None,
    }
}

/// Returns the cursor that has no further row.
fn finished_by(entry: &Entry) -> Option<u32>
    ensures { result ≡ heard.finished_by entry.now.call entry.now.answer }
{
    match &entry.call {
        DriverCall::Next(rows) if entry.answer.ends_cursor() => Some(*rows),
        _ => None,
    }
}

/// Adds a handle that was given to the live ones, and removes one that was closed.
pub fn hear_handles(handles: &mut Vec<Handle>, entry: &Entry)
    requires { vec_len handles.old < vec_capacity handles.old }
    ensures items { handles.new.items ≡ heard.handles_with (heard.prepared_by entry.now.call entry.now.answer)
        (heard.closed_by entry.now.call) entry.now handles.old.items }
    ensures len { vec_len handles.new ≤ vec_len handles.old + 1 }
    ensures capacity { vec_capacity handles.new ≡ vec_capacity handles.old }
{
    match (prepared_by(entry), closed_by(entry)) {
        (Some(number), _) => put_first(
            handles,
            Handle {
                number,
                tenure: entry.tenure,
                owner: entry.owner,
                tx: entry.tx,
            },
        ),
        (None, Some(number)) => drop_handle(handles, number),
        (None, None) => {}
    }
}

fn drop_handle(handles: &mut Vec<Handle>, number: u32)
    ensures items { handles.new.items ≡ filter (λ h. not (h.number == number)) handles.old.items }
    ensures len { vec_len handles.new ≤ vec_len handles.old }
    ensures capacity { vec_capacity handles.new ≡ vec_capacity handles.old }
{
    handles.retain(|handle| handle.number != number);
}

/// Adds a cursor that was given to the live ones, removes one that was closed, and marks one without a further
/// row as over.
pub fn hear_cursors(cursors: &mut Vec<Cursor>, entry: &Entry)
    requires { vec_len cursors.old < vec_capacity cursors.old }
    ensures items { cursors.new.items ≡ heard.cursors_with (heard.opened_by entry.now.call entry.now.answer)
        (heard.freed_by entry.now.call)
        (heard.finished_by entry.now.call entry.now.answer) entry.now cursors.old.items }
    ensures len { vec_len cursors.new ≤ vec_len cursors.old + 1 }
    ensures capacity { vec_capacity cursors.new ≡ vec_capacity cursors.old }
{
    match (opened_by(entry), freed_by(entry), finished_by(entry)) {
        (Some(number), _, _) => put_first(
            cursors,
            Cursor {
                number,
                tenure: entry.tenure,
                tx: entry.tx,
                columns: columns_of(&entry.answer),
                over: false,
            },
        ),
        (None, Some(number), _) => drop_cursor(cursors, number),
        (None, None, Some(number)) => end_cursor(cursors, number),
        (None, None, None) => {}
    }
}

fn drop_cursor(cursors: &mut Vec<Cursor>, number: u32)
    ensures items { cursors.new.items ≡ filter (λ c. not (c.number == number)) cursors.old.items }
    ensures len { vec_len cursors.new ≤ vec_len cursors.old }
    ensures capacity { vec_capacity cursors.new ≡ vec_capacity cursors.old }
{
    cursors.retain(|cursor| cursor.number != number);
}

/// Returns the cursor, over if it has that number.
fn over_if(cursor: Cursor, number: u32) -> Cursor
    ensures { result ≡ heard.over_if number cursor }
{
    if cursor.number == number {
        Cursor {
            over: true,
            ..cursor
        }
    } else {
        cursor
    }
}

fn end_cursor(cursors: &mut Vec<Cursor>, number: u32)
    ensures items { cursors.new.items ≡ map (heard.over_if number) cursors.old.items }
    ensures len { vec_len cursors.new ≡ vec_len cursors.old }
    ensures capacity { vec_capacity cursors.new ≡ vec_capacity cursors.old }
{
    end_each(cursors.as_mut_slice(), number);
}

fn end_each(cursors: &mut [Cursor], number: u32)
    ensures { cursors.new ≡ map (heard.over_if number) cursors.old }
{
    for cursor in cursors.iter_mut() {
        *cursor = over_if(*cursor, number);
    }
}

/// Adds a transaction that was begun to the open ones, and removes one that has its Commit or Rollback.
pub fn hear_open(numbers: &mut Vec<u32>, entry: &Entry)
    requires { vec_len numbers.old < vec_capacity numbers.old }
    ensures items { numbers.new.items ≡ open_after entry.now numbers.old.items }
    ensures len { vec_len numbers.new ≤ vec_len numbers.old + 1 }
    ensures capacity { vec_capacity numbers.new ≡ vec_capacity numbers.old }
{
    if begins(entry) {
        put_first(numbers, entry.tx);
    } else if entry.call.is_ending() {
        drop_number(numbers, entry.tx);
    }
}

/// Returns whether the entry is a Begin answered Done.
pub fn begins(entry: &Entry) -> bool
    ensures { result ≡ begins entry.now }
{
    entry.call.is_begin() && entry.answer.is_done()
}

fn drop_number(numbers: &mut Vec<u32>, number: u32)
    ensures items { numbers.new.items ≡ filter (λ m. not (m == number)) numbers.old.items }
    ensures len { vec_len numbers.new ≤ vec_len numbers.old }
    ensures capacity { vec_capacity numbers.new ≡ vec_capacity numbers.old }
{
    numbers.retain(|other| *other != number);
}

/// Puts an element first. There must be room for it.
fn put_first<T: Drop>(values: &mut Vec<T>, value: T)
    requires { vec_len values.old < vec_capacity values.old }
    ensures items { values.new.items ≡ value ∷ values.old.items }
    ensures len { vec_len values.new ≡ vec_len values.old + 1 }
    ensures capacity { vec_capacity values.new ≡ vec_capacity values.old }
{
    let _ = values.insert(0, value);
}

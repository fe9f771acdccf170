//! What was heard in the line of a call in a transaction.
ghost use Rattle.std.specs.Prelude.{◌≡◌, ◌∷◌, List, true};
ghost use Rattle.dsql_history.specs.journal.declared.entry.Entry.{Entry as EntryOf};
ghost use Rattle.dsql_history.specs.journal.Kinds.{is_number};
ghost use Rattle.dsql_engine_exchanged.specs.Heard.{nothing_heard, heard_line, then_heard, heard_if, is_about_open, cursor_after as cursor_by, handle_after as handle_by, none_given_again};
ghost use Rattle.dsql_history.specs.Readers.Lines.{line_among, closes_cursor, closes_handle};
ghost use Rattle.dsql_history.specs.works.Exchanges.{exchanges, step_of};

use crate::exchanged::Exchanged;
use dsql_history::{DriverAnswer, DriverCall, Due, Entry, Input};

/// What was heard in the line of a call in a transaction, with its own open cursor and handle.
#[derive(Drop)]
pub struct HeardLine {
    pub heard: Exchanged,
    /// The cursor that its run gave, until the cursor is closed.
    pub cursor: Option<u32>,
    /// The handle that it prepared itself, until the handle is closed.
    pub handle: Option<u32>,
}

impl HeardLine {
    /// Returns the record of a line in which nothing was heard yet.
    pub fn new() -> HeardLine
        ensures { result ≡ nothing_heard }
    {
        HeardLine {
            heard: Exchanged::new(),
            cursor: None,
            handle: None,
        }
    }

    /// Records an answer heard in the transaction if it belongs to the line of this call. It does if the call
    /// sent the driver call, or if the driver call is about the call's own open cursor or handle.
    pub fn hear_if(&mut self, call: u32, entry: &Entry)
        ensures step { self.new ≡ heard_if call entry.now self.old }

        // A driver may give a number again that was closed. In a line in which each entry was next it doesn't.
        ensures line { (heard : List EntryOf) → none_given_again (exchanges (line_among call heard)) ≡ true
            → self.old ≡ heard_line (line_among call heard)
            → self.new ≡ heard_line (line_among call (entry.now ∷ heard)) }
    {
        self.hear_own(call, entry);
    }

    fn hear_own(&mut self, call: u32, entry: &Entry)
        ensures { self.new ≡ heard_if call entry.now self.old }
    {
        if entry.call_no == call || self.is_about(&entry.call) {
            self.hear(entry);
        }
    }

    /// Records one more answer.
    fn hear(&mut self, entry: &Entry)
        ensures { self.new ≡ then_heard entry.now self.old }
    {
        self.heard.hear(entry);
        if let Some(step) = step_of(&entry.call) {
            self.cursor = cursor_after(step, &entry.answer, self.cursor);
            self.handle = handle_after(step, &entry.answer, self.handle);
        }
    }

    /// Returns whether the driver call is about its cursor or its handle.
    fn is_about(&self, call: &DriverCall) -> bool
        ensures { result ≡ is_about_open self.now call.now }
    {
        match call {
            DriverCall::Next(rows) | DriverCall::CloseRows(rows) => is_number(self.cursor, *rows),
            DriverCall::CloseStmt(handle) => is_number(self.handle, *handle),
            _ => false,
        }
    }
}

/// Returns the cursor that is open after a step of a course.
fn cursor_after(step: Due, answer: &DriverAnswer, cursor: Option<u32>) -> Option<u32>
    ensures { result ≡ cursor_by (Some step) answer.now cursor }
{
    let rows = answer.given_cursor().or(cursor)?;
    (!closes_cursor(step, rows)).then_some(rows)
}

/// Returns the handle that is open after a step of a course.
fn handle_after(step: Due, answer: &DriverAnswer, handle: Option<u32>) -> Option<u32>
    ensures { result ≡ handle_by (Some step) answer.now handle }
{
    let handle = answer.given_handle().or(handle)?;
    (!closes_handle(step, handle)).then_some(handle)
}

/// Returns whether the step closes this cursor.
fn closes_cursor(step: Due, rows: u32) -> bool
    ensures { result ≡ closes_cursor rows step }
{
    match step {
        Due::CloseRows(other) => other == rows,
        _ => false,
    }
}

/// Returns whether the step closes this handle.
fn closes_handle(step: Due, handle: u32) -> bool
    ensures { result ≡ closes_handle handle step }
{
    match step {
        Due::CloseStmt(other) => other == handle,
        _ => false,
    }
}

/// Returns whether there is a number and it is this one.
fn is_number(own: Option<u32>, number: u32) -> bool
    ensures { result ≡ is_number own number }
{
    match own {
        Some(own) => own == number,
        None => false,
    }
}

/// Returns the step of a course that a driver call is, if it is one.
fn step_of(call: &DriverCall) -> Option<Due>
    ensures { result ≡ step_of call.now }
{
    match call {
        DriverCall::Exec(Input::Text(_), _) => Some(Due::Text),
        DriverCall::Exec(Input::Handle(handle), _) => Some(Due::Handle(*handle)),
        DriverCall::Query(Input::Text(_), _) => Some(Due::Text),
        DriverCall::Query(Input::Handle(handle), _) => Some(Due::Handle(*handle)),
        DriverCall::Prepare(_) => Some(Due::Prepare),
        DriverCall::Next(rows) => Some(Due::Next(*rows)),
        DriverCall::CloseRows(rows) => Some(Due::CloseRows(*rows)),
        DriverCall::CloseStmt(handle) => Some(Due::CloseStmt(*handle)),
        DriverCall::Ping => Some(Due::Ping),
        _ => None,
    }
}

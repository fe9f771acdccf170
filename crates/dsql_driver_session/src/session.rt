ghost use Rattle.std.specs.Prelude.{◌≡◌, ◌==◌};
ghost use Rattle.std.specs.List.{position};
ghost use Rattle.dsql_driver_session.specs.Rows.{with_advanced, without_cursor};
ghost use Rattle.dsql_driver_session.specs.Session.{without_handle};

use crate::copies::{copies_of, copies_of_done, copies_of_failure};
use crate::cursor::Cursor;
use crate::result_set::ResultSet;
use dsql_driver::{Answered, DriverAnswer};
use dsql_value::{Memory, Txt};
use std::alloc::Global;
use std::marker::Model;

/// A prepared text, with its handle.
#[derive(Drop)]
pub(crate) struct Prepared {
    handle: u32,
    text: Txt,
}

/// What a driver keeps for one connection: the texts that are prepared on it, by their handles, and the cursors that
/// are open on it. Both are numbered from 1, and no number is given twice. A call that is refused fails with a text of
/// the driver's own.
#[derive(Drop)]
pub struct Session {
    prepared: Vec<Prepared>,
    last_handle: u32,
    cursors: Vec<Cursor>,
    last_cursor: u32,
}

impl Model for Session {
    ghost use Rattle.dsql_driver_session.specs.Session.{SessionState, AreSound};

    ghost Value = { SessionState };

    ghost view = { λ s. record {
      prepared = s.prepared.items;
      last_handle = s.last_handle;
      cursors = s.cursors.items;
      last_cursor = s.last_cursor;
    } };

    ghost invariant = { λ s. AreSound s.last_handle s.prepared.items s.last_cursor s.cursors.items };
}

impl Session {
    ghost use Rattle.std.specs.Prelude.{◌≡◌, true, IfOk, IsOk, OnErr, option_map};
    ghost use Rattle.std.specs.Option.{option_copied};
    ghost use Rattle.dsql_driver_session.specs.Calls.{Keeps, handle_given, closed, opened, next_taken, rows_closed};
    ghost use Rattle.dsql_driver_session.specs.Session.{IsSound, new_session, is_live, is_open, text_of, cursor_of};

    /// Returns the session of a new connection.
    pub fn new(alloc: Global) -> Session
        ensures { result ≡ new_session }
    {
        Session {
            prepared: Vec::new(alloc),
            last_handle: 0,
            cursors: Vec::new(alloc),
            last_cursor: 0,
        }
    }

    /// Does nothing. Its contract shows its callers that the session's tables are sound.
    pub fn vouch(&self)
        ensures { IsSound self.now }
    {
        let _last = self.last_handle;
    }

    /// Returns the text that was prepared under this handle, or `None` if the handle isn't live.
    pub fn text(&self, handle: u32) -> Option<&str>
        ensures { option_map (λ text. text.now) result ≡ text_of handle self.now }
    {
        let prepared = self.prepared.iter().find(|p| p.handle == handle)?;
        Some(prepared.text.as_str())
    }

    /// Returns true if the handle is live.
    fn is_live(&self, handle: u32) -> bool
        ensures { result ≡ is_live handle self.now }
    {
        self.prepared.iter().any(|p| p.handle == handle)
    }

    /// Returns the cursor with this number, or `None` if it isn't live.
    fn cursor(&self, rows: u32) -> Option<&Cursor>
        ensures { option_copied result ≡ cursor_of rows self.now }
    {
        self.cursors.iter().find(|c| c.number() == rows)
    }

    /// Returns true if the cursor is live.
    fn is_open(&self, rows: u32) -> bool
        ensures { result ≡ is_open rows self.now }
    {
        self.cursors.iter().any(|c| c.number() == rows)
    }

    /// Gives a text with this many inputs the next handle. It is refused if the handles' numbers are spent.
    pub fn prepare(
        &mut self,
        alloc: Global,
        text: &Txt,
        inputs: u16,
        refusal: &str,
    ) -> Result<Answered, Memory>
        ensures served { IfOk result (λ answered.
            Keeps (handle_given self.old text.now inputs (DriverAnswer.Fail refusal.now)) answered self.new) }
        ensures stays { OnErr result (self.new ≡ self.old) }
    {
        let last = self.last_handle;
        if last == u32::MAX {
            return copies_of_failure(alloc, refusal);
        }
        let handle = last + 1;
        let inputs = i32::from(inputs);
        let text = text.copy()?;
        self.prepared.reserve(1)?;
        let copies = copies_of(DriverAnswer::Prepared { handle, inputs })?;
        self.prepared.push_reserved(Prepared { handle, text });
        self.last_handle = handle;
        Ok(copies)
    }

    /// Closes a handle. It is refused if the handle isn't live. Only the refusal takes memory.
    pub fn close(&mut self, alloc: Global, handle: u32, refusal: &str) -> Result<Answered, Memory>
        ensures served { IfOk result (λ answered.
            Keeps (closed self.old handle (DriverAnswer.Fail refusal.now)) answered self.new) }
        ensures stays { OnErr result (self.new ≡ self.old) }
        ensures ready { is_live handle self.old ≡ true → IsOk result }
    {
        if !self.is_live(handle) {
            return copies_of_failure(alloc, refusal);
        }
        take_out(&mut self.prepared, handle);
        Ok(copies_of_done())
    }

    /// Opens a cursor over the rows of a query and gives it the next number. It is refused if the cursors' numbers are
    /// spent.
    pub fn open(&mut self, alloc: Global, set: ResultSet, refusal: &str) -> Result<Answered, Memory>
        ensures served { IfOk result (λ answered.
            Keeps (opened self.old set (DriverAnswer.Fail refusal.now)) answered self.new) }
        ensures stays { OnErr result (self.new ≡ self.old) }
    {
        let last = self.last_cursor;
        if last == u32::MAX {
            return copies_of_failure(alloc, refusal);
        }
        let number = last + 1;
        self.cursors.reserve(1)?;
        let (columns, rows) = set.into_parts();
        let width = columns.as_slice().len();
        let copies = copies_of(DriverAnswer::Cursor {
            rows: number,
            columns,
        })?;
        self.cursors.push_reserved(Cursor::new(number, width, rows));
        self.last_cursor = number;
        Ok(copies)
    }

    /// Takes a cursor's next row. It is refused if the cursor isn't live.
    pub fn take_row(&mut self, alloc: Global, rows: u32, refusal: &str) -> Result<Answered, Memory>
        ensures served { IfOk result (λ answered.
            Keeps (next_taken self.old rows (DriverAnswer.Fail refusal.now)) answered self.new) }
        ensures stays { OnErr result (self.new ≡ self.old) }
    {
        let Some(cursor) = self.cursor(rows) else {
            return copies_of_failure(alloc, refusal);
        };
        let Some(row) = cursor.next_row()? else {
            return copies_of(DriverAnswer::End);
        };
        let copies = copies_of(DriverAnswer::Row(row))?;
        advance(&mut self.cursors, rows);
        Ok(copies)
    }

    /// Closes a cursor. It is refused if the cursor isn't live. Only the refusal takes memory.
    pub fn close_rows(
        &mut self,
        alloc: Global,
        rows: u32,
        refusal: &str,
    ) -> Result<Answered, Memory>
        ensures served { IfOk result (λ answered.
            Keeps (rows_closed self.old rows (DriverAnswer.Fail refusal.now)) answered self.new) }
        ensures stays { OnErr result (self.new ≡ self.old) }
        ensures ready { is_open rows self.old ≡ true → IsOk result }
    {
        if !self.is_open(rows) {
            return copies_of_failure(alloc, refusal);
        }
        take_out_cursor(&mut self.cursors, rows);
        Ok(copies_of_done())
    }
}

/// Returns the place of a cursor.
fn place_of(cursors: &[Cursor], rows: u32) -> Option<usize>
    ensures { result ≡ position (λ c. c.number == rows) cursors.now }
{
    cursors.iter().position(|c| c.number() == rows)
}

/// Moves a cursor past its next row.
fn advance(cursors: &mut Vec<Cursor>, rows: u32)
    ensures { cursors.new.items ≡ with_advanced rows cursors.old.items }
{
    if let Some(at) = place_of(cursors, rows) {
        let cursor = &mut cursors[at];
        cursor.advance();
    }
}

/// Takes a cursor out.
fn take_out_cursor(cursors: &mut Vec<Cursor>, rows: u32)
    ensures { cursors.new.items ≡ without_cursor rows cursors.old.items }
{
    cursors.retain(|c| c.number() != rows);
}

/// Takes a handle's text out.
fn take_out(prepared: &mut Vec<Prepared>, handle: u32)
    ensures { prepared.new.items ≡ without_handle handle prepared.old.items }
{
    prepared.retain(|p| p.handle != handle);
}

//! Live handles and cursors, and where they may be used.
ghost use Rattle.std.specs.Prelude.{◌≡◌, ◌&&◌, ◌||◌, ◌==◌, not};
ghost use Rattle.std.specs.List.{list_all, list_any};
ghost use Rattle.dsql_tenure_journal.specs.Kinds as kind;
ghost use Rattle.dsql_tenure_asked.specs.Asked.{entry_like};
ghost use Rattle.dsql_tenure_asked.specs.Live as live;

use crate::asked::Asked;
use dsql_tenure_journal::Owner;

/// A live handle: by which Prepare it was given.
#[derive(Clone, Copy)]
pub struct Handle {
    pub number: u32,
    pub tenure: u32,
    pub owner: Owner,
    pub tx: u32,
}

/// A live cursor: by which Query it was given, how many columns it has, and whether its rows are over.
#[derive(Clone, Copy)]
pub struct Cursor {
    pub number: u32,
    pub tenure: u32,
    pub tx: u32,
    pub columns: usize,
    pub over: bool,
}

impl Handle {
    ghost use Rattle.dsql_tenure_asked.specs.Live as live;

    /// Returns whether the handle may be used there.
    fn serves(&self, asked: &Asked<'_>) -> bool
        ensures { result ≡ live.serves_handle self.now (entry_like asked.now) }
    {
        self.tx == asked.tx
            && if self.owner.is_call() {
                asked.owner.is_call() || asked.owner.is_house() && asked.call.is_close_stmt()
            } else {
                self.tenure == asked.tenure
            }
    }
}

impl Cursor {
    ghost use Rattle.dsql_tenure_asked.specs.Live as live;

    /// Returns whether the cursor may be used there.
    fn serves(&self, asked: &Asked<'_>) -> bool
        ensures { result ≡ live.serves_cursor self.now (entry_like asked.now) }
    {
        (!asked.call.is_next() || !self.over) && self.tx == asked.tx && self.tenure == asked.tenure
    }
}

/// Returns whether the handle of that number is live and may be used there.
pub fn serves_handle(handles: &[Handle], number: u32, asked: &Asked<'_>) -> bool
    ensures { result ≡ (list_any (λ h. h.number == number) handles.now
        && list_all (λ h. not (h.number == number) || live.serves_handle h (entry_like asked.now)) handles.now) }
{
    has_handle(handles, number) && each_handle_serves(handles, number, asked)
}

/// Returns whether the handle of that number is live.
pub fn has_handle(handles: &[Handle], number: u32) -> bool
    ensures { result ≡ list_any (λ h. h.number == number) handles.now }
{
    handles.iter().any(|handle| handle.number == number)
}

fn each_handle_serves(handles: &[Handle], number: u32, asked: &Asked<'_>) -> bool
    ensures { result ≡ list_all (λ h. not (h.number == number)
        || live.serves_handle h (entry_like asked.now)) handles.now }
{
    handles
        .iter()
        .all(|handle| handle.number != number || handle.serves(asked))
}

/// Returns whether the cursor of that number is live and may be used there.
pub fn serves_cursor(cursors: &[Cursor], number: u32, asked: &Asked<'_>) -> bool
    ensures { result ≡ (list_any (λ c. c.number == number) cursors.now
        && list_all (λ c. not (c.number == number) || live.serves_cursor c (entry_like asked.now)) cursors.now) }
{
    has_cursor(cursors, number) && each_cursor_serves(cursors, number, asked)
}

/// Returns whether the cursor of that number is live.
pub fn has_cursor(cursors: &[Cursor], number: u32) -> bool
    ensures { result ≡ list_any (λ c. c.number == number) cursors.now }
{
    cursors.iter().any(|cursor| cursor.number == number)
}

fn each_cursor_serves(cursors: &[Cursor], number: u32, asked: &Asked<'_>) -> bool
    ensures { result ≡ list_all (λ c. not (c.number == number)
        || live.serves_cursor c (entry_like asked.now)) cursors.now }
{
    cursors
        .iter()
        .all(|cursor| cursor.number != number || cursor.serves(asked))
}

/// Returns whether no cursor of that tenure is live.
pub fn no_cursor_of_tenure(cursors: &[Cursor], number: u32) -> bool
    ensures { result ≡ list_all (λ c. not (c.tenure == number)) cursors.now }
{
    cursors.iter().all(|cursor| cursor.tenure != number)
}

/// Returns whether all live handles of that tenure are those that calls on the database prepared.
pub fn only_call_handles_of_tenure(handles: &[Handle], number: u32) -> bool
    ensures { result ≡ list_all (λ h. not (h.tenure == number) || kind.is_call h.owner) handles.now }
{
    handles
        .iter()
        .all(|handle| handle.tenure != number || handle.owner.is_call())
}

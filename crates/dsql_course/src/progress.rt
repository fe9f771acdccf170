ghost use Rattle.std.specs.Prelude.{◌≡◌, [], ◌∷◌};
ghost use Rattle.std.specs.List.{list_any};
ghost use Rattle.dsql_course.specs.Made.{went_bad as went_bad_of, was_skipped as was_skipped_of, is_done, given_handle as given_handle_of, own_handle as own_handle_of, given_cursor as given_cursor_of, own_cursor as own_cursor_of, was_decided as was_decided_of, ends_rows as ends_rows_of, rows_are_over as rows_are_over_of};
ghost use Rattle.dsql_course.specs.Line.{comes_next as next_of};
ghost use Rattle.dsql_course.specs.Rows.{rows_next, rows_next_of, closing_of};
ghost use Rattle.dsql_course.specs.Summary.{last_call, is_settled};

use crate::call::{Due, Got};
use crate::course::{Course, Wish};
use crate::line::{Found, Plan};
use dsql_driver::Caps;
use dsql_value_past::Past;
use std::marker::Model;

/// The progress of a course: what its calls have made, as far as later ones depend on it. Contracts see the
/// calls themselves with their answers, newest first. It takes no memory.
#[derive(Drop)]
pub struct Progress {
    past: Past<(Due, Got)>,
    last: Option<Due>,
    handle: Option<(u32, i32)>,
    cursor: Option<u32>,
    skipped: bool,
    done: bool,
    settled: bool,
    over: bool,
    bad: bool,
}

impl Model for Progress {
    ghost use Rattle.std.specs.Prelude.{List};
    ghost use Rattle.dsql_course.specs.Made.{Exchange};

    ghost Value = { List Exchange };

    ghost view = { λ p. p.past.items };

    ghost use Rattle.dsql_course.specs.Summary.{Summary};

    ghost invariant = { λ p. Summary p.past.items p.last p.handle p.cursor p.skipped p.done p.settled p.over p.bad };
}

#[tactic(auto, using(crate::proofs::Summaries::summary_with))]
impl Progress {
    /// Returns the progress of a course that has made no call yet.
    pub fn new() -> Progress
        ensures { result ≡ [] }
    {
        Progress {
            past: Past::new(),
            last: None,
            handle: None,
            cursor: None,
            skipped: false,
            done: false,
            settled: false,
            over: false,
            bad: false,
        }
    }

    /// Returns the progress with one more call and its answer.
    pub fn with(&self, call: Due, got: Got) -> Progress
        ensures { result ≡ (call, got) ∷ self.now }
    {
        Progress {
            past: self.past.then_pair(&call, &got),
            last: Some(call),
            handle: given_handle(got).or(self.handle),
            cursor: given_cursor(got).or(self.cursor),
            skipped: matches!(got, Got::Skip) || self.skipped,
            done: matches!(got, Got::Done) || self.done,
            settled: settles(call, got) || self.settled,
            over: ends_rows(call, got) || self.over,
            bad: matches!(got, Got::Bad) || self.bad,
        }
    }

    /// Returns the driver call that comes next in one try of a call with this many arguments.
    pub fn next(&self, course: Course, caps: Caps, args: usize, stopped: bool, bad: bool) -> Due
        ensures { result ≡ next_of course caps args (record { stopped = stopped; bad = bad }) self.now }
    {
        let plan = Plan { course, caps, args };
        plan.comes_next(Found { stopped, bad }, self)
    }

    /// Returns what comes next for rows with this cursor that a query handed out, if `wish` is wanted of them.
    /// Their connection isn't known to be bad from elsewhere. Returns `None` if they stay open as they are.
    pub fn next_over_rows(&self, wish: Wish, caps: Caps, args: usize, rows: u32) -> Option<Due>
        ensures { result ≡ rows_next wish caps args self.now rows }
    {
        self.next_over_rows_of(Course::Query, wish, caps, args, false, rows)
    }

    /// Returns the same for the rows that any course handed out. A statement keeps the handle that its run
    /// prepared. If the connection is known to be bad, rows are still fetched, but not closed.
    pub fn next_over_rows_of(
        &self,
        course: Course,
        wish: Wish,
        caps: Caps,
        args: usize,
        bad: bool,
        rows: u32,
    ) -> Option<Due>
        ensures { result ≡ rows_next_of course bad wish caps args self.now rows }
    {
        match wish {
            Wish::Nothing if !self.over => None,
            Wish::Fetch if !self.over => Some(Due::Next(rows)),
            _ => Some(self.closing_of(course, caps, args, bad)),
        }
    }

    /// Returns what comes next to close the rows that a course handed out.
    fn closing_of(&self, course: Course, caps: Caps, args: usize, bad: bool) -> Due
        ensures { result ≡ closing_of course bad caps args self.now }
    {
        match (course, self.next(Course::One, caps, args, true, bad)) {
            (Course::Run { .. }, Due::CloseStmt(_)) => Due::Over,
            (_, due) => due,
        }
    }
}

/// Questions to a progress.
impl Progress {
    /// Returns the last call.
    pub(crate) fn last(&self) -> Option<Due>
        ensures { result ≡ last_call self.now }
    {
        self.last
    }

    /// Returns true if an answer was Bad.
    pub(crate) fn went_bad(&self) -> bool
        ensures { result ≡ went_bad_of self.now }
    {
        self.bad
    }

    /// Returns true if the driver declined to run the text, which must then be prepared.
    pub(crate) fn was_skipped(&self) -> bool
        ensures { result ≡ was_skipped_of self.now }
    {
        self.skipped
    }

    /// Returns true if an answer was Done.
    pub(crate) fn was_done(&self) -> bool
        ensures { result ≡ list_any (λ x. is_done x.1) self.now }
    {
        self.done
    }

    /// Returns the handle that the course prepared itself, with the number of its inputs.
    pub(crate) fn own_handle(&self) -> Option<(u32, i32)>
        ensures { result ≡ own_handle_of self.now }
    {
        self.handle
    }

    /// Returns the cursor that the course's run gave.
    pub fn own_cursor(&self) -> Option<u32>
        ensures { result ≡ own_cursor_of self.now }
    {
        self.cursor
    }

    /// Returns true if that cursor gives no more rows.
    pub fn rows_are_over(&self) -> bool
        ensures { result ≡ rows_are_over_of self.now }
    {
        self.over
    }

    /// Returns true if an answer has settled the call's reply.
    #[tactic(auto, using(crate::proofs::Summaries::decided_by))]
    pub(crate) fn was_decided(&self, course: Course) -> bool
        ensures { result ≡ was_decided_of course self.now }
    {
        self.settled || self.cursor.is_some() && !course.reads_one()
    }
}

/// Returns the handle that an answer gives, with the number of its inputs.
fn given_handle(got: Got) -> Option<(u32, i32)>
    ensures { result ≡ given_handle_of got }
{
    match got {
        Got::Prepared { handle, inputs } => Some((handle, inputs)),
        _ => None,
    }
}

/// Returns the cursor that an answer gives.
fn given_cursor(got: Got) -> Option<u32>
    ensures { result ≡ given_cursor_of got }
{
    match got {
        Got::Cursor(rows) => Some(rows),
        _ => None,
    }
}

/// Returns true if the answer settles the call's reply, whatever its course.
fn settles(call: Due, got: Got) -> bool
    ensures { result ≡ is_settled (call, got) }
{
    match (call, got) {
        (Due::Next(_), _) | (_, Got::Result) => true,
        (Due::Text | Due::Prepare | Due::Handle(_), Got::Fail) => true,
        _ => false,
    }
}

/// Returns true if the cursor gives no more rows after this answer.
fn ends_rows(call: Due, got: Got) -> bool
    ensures { result ≡ ends_rows_of (call, got) }
{
    match (call, got) {
        (Due::Next(_), Got::Row) => false,
        (Due::Next(_) | Due::CloseRows(_), _) => true,
        _ => false,
    }
}

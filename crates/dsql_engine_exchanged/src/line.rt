//! Decides the next driver call of a call's course.
ghost use Rattle.std.specs.Prelude.{◌≡◌, length, option_map};
ghost use Rattle.dsql_engine_exchanged.specs.Filled.{filled};
ghost use Rattle.dsql_engine_exchanged.specs.Lines.{bare_of, bare_told, line_told, step_after};
ghost use Rattle.dsql_history.specs.works.Line.{Asked, course_of, handed};

use crate::bare::BareCall;
use crate::exchanged::{Exchanged, Stage};
use dsql_history::{Aim, Caps, Course, Due, Progress, Wish};

/// What decides the next driver call on a connection, besides what was heard there. It says what the driver can
/// do, whether a Reset is due first, and what is wanted of rows that were handed out.
#[derive(Clone, Copy)]
pub struct Line {
    pub caps: Caps,
    pub reset_due: bool,
    pub wish: Wish,
}

impl Line {
    /// Returns the next driver call after what was heard, for each statement with this aim and this many
    /// parameters.
    pub fn next(self, aim: Aim, count: usize, heard: &Exchanged) -> Option<BareCall>
        ensures { (asked : Asked) → asked.aim ≡ aim → length asked.params ≡ count → option_map (filled asked) result
            ≡ line_told self.caps self.reset_due asked self.wish heard.now }
    {
        self.bare_next(aim, count, heard)
    }

    fn bare_next(self, aim: Aim, count: usize, heard: &Exchanged) -> Option<BareCall>
        ensures { result ≡ bare_told self.caps self.reset_due aim count self.wish heard.now }
    {
        match heard.stage {
            Stage::Fresh if self.reset_due => Some(BareCall::Reset),
            Stage::Fresh | Stage::Going => {
                let due = step_after(self.caps, aim, count, self.wish, &heard.made)?;
                bare_of(self.caps, due)
            }
            Stage::Over => None,
        }
    }
}

/// Returns the next call of the course. After rows were handed out, returns the next call over them, or `None`
/// if they stay as they are.
fn step_after(caps: Caps, aim: Aim, count: usize, wish: Wish, made: &Progress) -> Option<Due>
    ensures { result ≡ step_after caps aim count wish made.now }
{
    match handed(aim, made) {
        Some(rows) => made.next_over_rows(wish, caps, count, rows),
        None => Some(made.next(course_of(aim), caps, count, false, false)),
    }
}

/// Returns the cursor of the rows that are handed out. Returns `None` if none are.
fn handed(aim: Aim, made: &Progress) -> Option<u32>
    ensures { result ≡ handed aim made.now }
{
    match aim {
        Aim::HandOut => made.own_cursor(),
        _ => None,
    }
}

/// Returns the course of a call with this aim.
fn course_of(aim: Aim) -> Course
    ensures { result ≡ course_of aim }
{
    match aim {
        Aim::Execute => Course::Exec,
        Aim::ReadOne => Course::One,
        Aim::HandOut => Course::Query,
        Aim::Ping => Course::Ping,
    }
}

/// Returns the driver call for a call of a course. At the end of the course it is the test of the connection,
/// if the driver can test one.
fn bare_of(caps: Caps, due: Due) -> Option<BareCall>
    ensures { result ≡ bare_of caps due }
{
    match due {
        Due::Text => Some(BareCall::Text),
        Due::Prepare => Some(BareCall::Prepare),
        Due::Handle(handle) => Some(BareCall::Handle(handle)),
        Due::Next(rows) => Some(BareCall::Next(rows)),
        Due::CloseRows(rows) => Some(BareCall::CloseRows(rows)),
        Due::CloseStmt(handle) => Some(BareCall::CloseStmt(handle)),
        Due::Ping => Some(BareCall::Ping),
        Due::Begin | Due::Rollback | Due::Over => caps.validator.then_some(BareCall::Valid),
    }
}

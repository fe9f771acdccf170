//! The driver calls of a call in a transaction.
ghost use Rattle.std.specs.Prelude.{◌≡◌, length, option_map};
ghost use Rattle.dsql_engine_exchanged.specs.Filled.{filled};
ghost use Rattle.dsql_engine_exchanged.specs.Inside.{bare_of as bare_of_due, bare_inside, inside_told, step_inside};
ghost use Rattle.dsql_history.specs.Rules.Sent.{untested};
ghost use Rattle.dsql_history.specs.works.Line.{Asked, course_of as course_for, handed as handed_by};

use crate::bare::BareCall;
use crate::exchanged::Exchanged;
use dsql_history::{Aim, Caps, Course, Due, Progress, Wish};

/// What decides the driver calls of a call in a transaction. That is what the driver can do, what is wanted from rows
/// that were handed out, and whether the connection is known to be bad.
#[derive(Clone, Copy)]
pub struct Inside {
    pub caps: Caps,
    pub wish: Wish,
    pub bad: bool,
}

impl Inside {
    /// Returns the next driver call after this was heard in the line of the call, for each statement with this
    /// aim and this many parameters.
    pub fn next(self, aim: Aim, count: usize, heard: &Exchanged) -> Option<BareCall>
        ensures { (asked : Asked) → asked.aim ≡ aim → length asked.params ≡ count → option_map (filled asked) result
            ≡ inside_told self.caps self.bad asked self.wish heard.now }
    {
        self.bare_next(aim, count, heard)
    }

    fn bare_next(self, aim: Aim, count: usize, heard: &Exchanged) -> Option<BareCall>
        ensures { result ≡ bare_inside self.caps self.bad aim count self.wish heard.now.made }
    {
        bare_of(self.step_after(aim, count, &heard.made)?)
    }

    /// Returns the next step of the course, or the next step over rows that were handed out.
    fn step_after(self, aim: Aim, count: usize, made: &Progress) -> Option<Due>
        ensures { result ≡ step_inside (untested self.caps) self.bad aim count self.wish made.now }
    {
        let caps = self.untested();
        match handed(aim, made) {
            Some(rows) => made.next_over_rows_of(
                Course::Query,
                self.wish,
                caps,
                count,
                self.bad,
                rows,
            ),
            None => Some(made.next(course_of(aim), caps, count, false, self.bad)),
        }
    }

    /// Returns the capabilities without the test of a connection. A connection is tested as it is given back,
    /// so not here.
    fn untested(self) -> Caps
        ensures { result ≡ untested self.caps }
    {
        Caps {
            validator: false,
            ..self.caps
        }
    }
}

/// Returns the cursor of rows that are handed out.
fn handed(aim: Aim, made: &Progress) -> Option<u32>
    ensures { result ≡ handed_by aim made.now }
{
    match aim {
        Aim::HandOut => made.own_cursor(),
        _ => None,
    }
}

/// Returns the course of a call with this aim.
fn course_of(aim: Aim) -> Course
    ensures { result ≡ course_for aim }
{
    match aim {
        Aim::Execute => Course::Exec,
        Aim::ReadOne => Course::One,
        Aim::HandOut => Course::Query,
        Aim::Ping => Course::Ping,
    }
}

/// Returns the driver call for a step of a course. Returns `None` at the end of the course.
fn bare_of(due: Due) -> Option<BareCall>
    ensures { result ≡ bare_of_due due }
{
    match due {
        Due::Text => Some(BareCall::Text),
        Due::Prepare => Some(BareCall::Prepare),
        Due::Handle(handle) => Some(BareCall::Handle(handle)),
        Due::Next(rows) => Some(BareCall::Next(rows)),
        Due::CloseRows(rows) => Some(BareCall::CloseRows(rows)),
        Due::CloseStmt(handle) => Some(BareCall::CloseStmt(handle)),
        Due::Ping => Some(BareCall::Ping),
        Due::Begin | Due::Rollback | Due::Over => None,
    }
}

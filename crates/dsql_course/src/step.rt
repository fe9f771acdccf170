ghost use Rattle.std.specs.Prelude.{◌≡◌, map};
ghost use Rattle.std.specs.Option.{option_map};
ghost use Rattle.dsql_course.specs.Steps.{steps as steps_of, step_of, behind as behind_of};
ghost use Rattle.dsql_course.specs.Line.{behind_call as behind_call_of};
ghost use Rattle.dsql_course.specs.Meant.{meant};

use crate::call::Due;
use crate::course::Course;
use Step::{
    BeginIt, CloseCursor, CloseHandle, FetchRow, PingIt, PrepareText, RunHandle, RunText, UndoIt,
};

/// A step of a course.
#[derive(Clone, Copy, PartialEq, Eq)]
pub(crate) enum Step {
    RunText,
    PrepareText,
    RunHandle,
    FetchRow,
    CloseCursor,
    CloseHandle,
    PingIt,
    BeginIt,
    UndoIt,
}

/// Returns the steps that a course may take, in their order.
pub(crate) fn steps(course: Course) -> &'static [Step]
    ensures { map meant result.now ≡ steps_of course }
{
    match course {
        Course::Exec | Course::Query => &[RunText, PrepareText, RunHandle, CloseHandle],
        Course::One => &[
            RunText,
            PrepareText,
            RunHandle,
            FetchRow,
            CloseCursor,
            CloseHandle,
        ],
        Course::Prepare => &[PrepareText, CloseHandle],
        Course::Run { .. } => &[PrepareText, RunHandle, FetchRow, CloseCursor, CloseHandle],
        Course::Ping => &[PingIt],
        Course::Begin => &[BeginIt, UndoIt],
    }
}

/// Returns the step that a driver call takes, or `None` for `Over`.
fn step_of_call(call: Due) -> Option<Step>
    ensures { option_map meant result ≡ step_of call }
{
    match call {
        Due::Text => Some(RunText),
        Due::Prepare => Some(PrepareText),
        Due::Handle(_) => Some(RunHandle),
        Due::Next(_) => Some(FetchRow),
        Due::CloseRows(_) => Some(CloseCursor),
        Due::CloseStmt(_) => Some(CloseHandle),
        Due::Ping => Some(PingIt),
        Due::Begin => Some(BeginIt),
        Due::Rollback => Some(UndoIt),
        Due::Over => None,
    }
}

/// Returns the steps after the one that a driver call takes.
pub(crate) fn behind_call(call: Due, all: &[Step]) -> &[Step]
    ensures { map meant result.now ≡ behind_call_of (step_of call) (map meant all.now) }
{
    match step_of_call(call) {
        Some(step) => behind(step, all),
        None => &[],
    }
}

/// Returns the steps after this one.
fn behind(step: Step, all: &[Step]) -> &[Step]
    ensures { map meant result.now ≡ behind_of (meant step) (map meant all.now) }
{
    for (i, other) in all.iter().enumerate() {
        if *other == step {
            return &all[i + 1..];
        }
    }
    &[]
}

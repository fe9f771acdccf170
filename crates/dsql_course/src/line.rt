ghost use Rattle.std.specs.Prelude.{◌≡◌, ◌&&◌, ◌||◌, not, is_none, map};
ghost use Rattle.dsql_value.specs.Arguments.{count_fault};
ghost use Rattle.dsql_course.specs.Line.{comes_next as next_of, first_wanted as first_wanted_of, steps_left as steps_left_of, wanted as wanted_of, run_with, lets_handle_go as lets_handle_go_of};
ghost use Rattle.dsql_course.specs.Made.{was_skipped as was_skipped_of, has_fast_way as has_fast_way_of, live_handle as live_handle_of, own_handle as own_handle_of, or_else};
ghost use Rattle.dsql_course.specs.Meant.{meant, known};

use crate::call::Due;
use crate::course::Course;
use crate::progress::Progress;
use crate::step::{self, Step};
use dsql_driver::Caps;

/// What is known when a driver call is made: whether the call is stopped, and whether its connection is known
/// to be bad.
#[derive(Clone, Copy)]
pub(crate) struct Found {
    pub(crate) stopped: bool,
    pub(crate) bad: bool,
}

/// What stays the same through one try of a call.
#[derive(Clone, Copy)]
pub(crate) struct Plan {
    pub(crate) course: Course,
    pub(crate) caps: Caps,
    pub(crate) args: usize,
}

impl Plan {
    /// Returns the driver call that comes next.
    pub(crate) fn comes_next(&self, found: Found, made: &Progress) -> Due
        ensures { result ≡ next_of self.now.course self.now.caps self.now.args (known found) made.now }
    {
        if made.went_bad() {
            Due::Over
        } else {
            self.first_wanted(found, made, steps_left(self.course, made))
        }
    }

    /// Returns the driver call of the first of these steps that is to be taken, or `Over` if none is.
    fn first_wanted(&self, found: Found, made: &Progress, steps: &[Step]) -> Due
        ensures { result
            ≡ first_wanted_of
            self.now.course self.now.caps self.now.args (known found) made.now (map meant steps.now) }
    {
        for step in steps {
            if let Some(call) = self.wanted(found, made, *step) {
                return call;
            }
        }
        Due::Over
    }

    /// Returns the driver call of a step, or `None` if the step isn't to be taken.
    fn wanted(&self, found: Found, made: &Progress, step: Step) -> Option<Due>
        ensures { result
            ≡ wanted_of self.now.course self.now.caps self.now.args (known found) made.now (meant step) }
    {
        let going_on = !found.stopped;
        match step {
            Step::RunText => (self.has_fast_way() && going_on).then_some(Due::Text),
            Step::PrepareText => (self.needs_handle(made) && going_on).then_some(Due::Prepare),
            Step::RunHandle if going_on => self.run_of_handle(made),
            Step::FetchRow if going_on && self.course.reads_one() => made
                .own_cursor()
                .map(Due::Next),
            Step::CloseCursor if !found.bad && self.course.reads_one() => {
                made.own_cursor().map(Due::CloseRows)
            }
            Step::CloseHandle if !found.bad && self.lets_handle_go(found, made) => {
                made.own_handle().map(|(handle, _)| Due::CloseStmt(handle))
            }
            Step::PingIt => (self.caps.pinger && going_on).then_some(Due::Ping),
            Step::BeginIt => going_on.then_some(Due::Begin),
            Step::UndoIt => (found.stopped && made.was_done()).then_some(Due::Rollback),
            _ => None,
        }
    }

    fn has_fast_way(&self) -> bool
        ensures { result ≡ has_fast_way_of self.now.course self.now.caps }
    {
        self.course.has_fast_way(self.caps)
    }

    /// Returns true if the text is to be prepared: the course has no live handle, and the driver doesn't run
    /// the text at once.
    fn needs_handle(&self, made: &Progress) -> bool
        ensures { result
            ≡ (is_none (live_handle_of self.now.course)
            && (not (has_fast_way_of self.now.course self.now.caps) || was_skipped_of made.now)) }
    {
        self.course.live_handle().is_none() && (!self.has_fast_way() || made.was_skipped())
    }

    /// Returns the run of the handle, if there is a handle that takes this many arguments.
    fn run_of_handle(&self, made: &Progress) -> Option<Due>
        ensures { result ≡ run_with self.now.args (or_else (own_handle_of made.now) (live_handle_of self.now.course)) }
    {
        let (handle, inputs) = made.own_handle().or(self.course.live_handle())?;
        takes(inputs, self.args).then_some(Due::Handle(handle))
    }

    /// Returns true if the course closes the handle that it prepared itself.
    fn lets_handle_go(&self, found: Found, made: &Progress) -> bool
        ensures { result ≡ lets_handle_go_of self.now.course (known found) made.now }
    {
        match self.course {
            Course::Exec | Course::One => true,
            // The handle lives on under the rows that are handed out.
            Course::Query => made.own_cursor().is_none(),
            course => found.stopped && !made.was_decided(course),
        }
    }
}

/// Returns the steps after the last one that was taken.
fn steps_left(course: Course, made: &Progress) -> &'static [Step]
    ensures { map meant result.now ≡ steps_left_of course made.now }
{
    let all = step::steps(course);
    match made.last() {
        Some(newest) => step::behind_call(newest, all),
        None => all,
    }
}

/// Returns true if a handle with this many inputs takes this many arguments. A handle with -1 inputs takes any
/// number.
fn takes(inputs: i32, args: usize) -> bool
    ensures { result ≡ is_none (count_fault inputs args) }
{
    u32::try_from(inputs).is_ok_and(|inputs| inputs as usize == args) || inputs < 0
}

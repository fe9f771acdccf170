//! What was heard on a connection since it was lent.
ghost use Rattle.std.specs.Prelude.{◌≡◌};
ghost use Rattle.dsql_engine_exchanged.specs.Exchanged.{unheard, then_heard, stage_after};
ghost use Rattle.dsql_history.specs.works.Exchanges.{step_of, got_of};

use dsql_history::{DriverAnswer, DriverCall, Due, Entry, Got, Input, Progress};

/// How far the driver calls on a connection have got since it was lent.
#[derive(Clone, Copy, Debug, PartialEq, Eq)]
pub enum Stage {
    /// No answer was heard yet.
    Fresh,
    /// An answer was heard, and more may follow.
    Going,
    /// The connection is bad or was tested, and nothing follows.
    Over,
}

/// What was heard on a connection since it was lent, as far as the next driver call depends on it.
#[derive(Drop)]
pub struct Exchanged {
    pub made: Progress,
    pub stage: Stage,
}

impl Exchanged {
    /// Returns the record before the first answer.
    pub fn new() -> Exchanged
        ensures { result ≡ unheard }
    {
        Exchanged {
            made: Progress::new(),
            stage: Stage::Fresh,
        }
    }

    /// Records one more answer.
    pub fn hear(&mut self, entry: &Entry)
        ensures { self.new ≡ then_heard entry.now self.old }
    {
        if let Some(step) = step_of(&entry.call) {
            self.made = self.made.with(step, got_of(&entry.answer));
        }
        self.stage = stage_after(entry);
    }
}

/// Returns the stage after an entry. Nothing follows a Bad or a test.
fn stage_after(entry: &Entry) -> Stage
    ensures { result ≡ stage_after entry.now }
{
    match (&entry.call, &entry.answer) {
        (_, DriverAnswer::Bad) | (DriverCall::Valid, _) => Stage::Over,
        _ => Stage::Going,
    }
}

/// Returns the call of a course that a driver call is. Returns `None` if it is none.
fn step_of(call: &DriverCall) -> Option<Due>
    ensures { result ≡ step_of call.now }
{
    match call {
        DriverCall::Exec(Input::Text(_), _) => Some(Due::Text),
        DriverCall::Exec(Input::Handle(handle), _) => Some(Due::Handle(*handle)),
        DriverCall::Query(Input::Text(_), _) => Some(Due::Text),
        DriverCall::Query(Input::Handle(handle), _) => Some(Due::Handle(*handle)),
        DriverCall::Prepare(_) => Some(Due::Prepare),
        DriverCall::Next(rows) => Some(Due::Next(*rows)),
        DriverCall::CloseRows(rows) => Some(Due::CloseRows(*rows)),
        DriverCall::CloseStmt(handle) => Some(Due::CloseStmt(*handle)),
        DriverCall::Ping => Some(Due::Ping),
        _ => None,
    }
}

/// Returns an answer, as far as later calls of a course depend on it.
fn got_of(answer: &DriverAnswer) -> Got
    ensures { result ≡ got_of answer.now }
{
    match answer {
        DriverAnswer::Done => Got::Done,
        DriverAnswer::Prepared { handle, inputs } => Got::Prepared {
            handle: *handle,
            inputs: *inputs,
        },
        DriverAnswer::Result { .. } => Got::Result,
        DriverAnswer::Cursor { rows, .. } => Got::Cursor(*rows),
        DriverAnswer::Row(_) => Got::Row,
        DriverAnswer::End => Got::End,
        DriverAnswer::Skip => Got::Skip,
        DriverAnswer::Bad => Got::Bad,
        _ => Got::Fail,
    }
}

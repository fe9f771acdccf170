//! One connection to the fixed table.
ghost use Rattle.std.specs.Prelude.{◌≡◌, ◌≤◌, None, IfOk, OnErr};
ghost use Rattle.dsql_driver_session.specs.Calls.{Keeps};
ghost use Rattle.dsql_driver_session.specs.Session.{IsSound, cursors_of, handles_of, new_session};
ghost use Rattle.fixed_answers.specs.Answers.{effect, faults_after, queried};

use crate::table::table;
use dsql_driver::{Answered, DriverAnswer, DriverCall, Input, Planned, Wire};
use dsql_driver_session::{Session, copies_of_done, copies_of_failure};
use dsql_value::{Memory, Param};
use std::alloc::Global;

const ONLY_QUERIES: &str = "fixed: only queries are answered";

const NO_PARAMETERS: &str = "fixed: a query takes no parameters";

const NO_SUCH_CURSOR: &str = "fixed: no such cursor";

const NUMBERS_SPENT: &str = "fixed: the numbers of cursors are spent";

/// One connection: its session, and how many faults it answered.
#[derive(Drop)]
pub(crate) struct FixedWire {
    alloc: Global,
    session: Session,
    faults: u64,
}

impl FixedWire {
    /// Returns a connection that was opened and did nothing yet.
    pub(crate) fn new(alloc: Global) -> FixedWire
        ensures session { result.session ≡ new_session }
    {
        FixedWire {
            alloc,
            session: Session::new(alloc),
            faults: 0,
        }
    }
}

/// Queries a text. The answer is a refusal if there are parameters.
fn ask(alloc: Global, session: &mut Session, params: &[Param]) -> Result<Answered, Memory>
    ensures served { IfOk result (λ answered. Keeps (queried session.old params.now) answered session.new) }
    ensures stays { OnErr result (session.new ≡ session.old) }
{
    if !params.is_empty() {
        return copies_of_failure(alloc, NO_PARAMETERS);
    }
    let table = table(alloc)?;
    session.open(alloc, table, NUMBERS_SPENT)
}

/// Answers a call as `effect` says. After an error the session is as it was.
fn answer(alloc: Global, session: &mut Session, call: &DriverCall) -> Result<Answered, Memory>
    ensures served { IfOk result (λ answered. Keeps (effect session.old call.now) answered session.new) }
    ensures stays { OnErr result (session.new ≡ session.old) }
    ensures sound { IsSound session.old }
{
    session.vouch();
    match call {
        DriverCall::Connect
        | DriverCall::Reset
        | DriverCall::Valid
        | DriverCall::Ping
        | DriverCall::Shut => Ok(copies_of_done()),
        DriverCall::Query(Input::Text(_), params) => ask(alloc, session, params.as_slice()),
        DriverCall::Next(rows) => session.take_row(alloc, *rows, NO_SUCH_CURSOR),
        DriverCall::CloseRows(rows) => session.close_rows(alloc, *rows, NO_SUCH_CURSOR),
        DriverCall::Prepare(_)
        | DriverCall::CloseStmt(_)
        | DriverCall::Exec(_, _)
        | DriverCall::Query(Input::Handle(_), _)
        | DriverCall::Begin { .. }
        | DriverCall::Commit
        | DriverCall::Rollback => copies_of_failure(alloc, ONLY_QUERIES),
    }
}

/// Returns a count of faults after an answer. The count stays at its largest value.
fn faults_after(faults: u64, answer: &DriverAnswer) -> u64
    ensures count { result ≡ faults_after faults answer.now }
    ensures counted { faults ≤ result }
{
    match answer {
        DriverAnswer::Invalid | DriverAnswer::Bad | DriverAnswer::Fail(_) => {
            faults.saturating_add(1)
        }
        _ => faults,
    }
}

impl Wire for FixedWire {
    // The wire keeps no record of what it heard, so no clause can speak of that.
    ghost told = { λ _. None };

    ghost faults = { λ w. w.faults };

    // The wire gives no handle, but its session could.
    ghost handles = { λ w. handles_of w.session };

    ghost cursors = { λ w. cursors_of w.session };

    fn call(&mut self, call: &DriverCall) -> Answered {
        match answer(self.alloc, &mut self.session, call) {
            Ok(answered) => {
                self.faults = faults_after(self.faults, &answered.answer);
                answered
            }
            Err(Memory) => Answered {
                answer: DriverAnswer::Memory,
                copy: DriverAnswer::Memory,
            },
        }
    }

    // Ignores a planned fault, because planned faults are for drivers that are to fail in tests.
    fn plan(&mut self, _nth: u32, _what: Planned) -> Result<(), Memory> {
        Ok(())
    }
}

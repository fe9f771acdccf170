ghost use Rattle.std.specs.Prelude.{◌≡◌, true, false, IfOk, OnOk, OnErr, if◌then◌else◌};
ghost use Rattle.dsql_driver.specs.Fits.{is_memory};
ghost use Rattle.dsql_driver_session.specs.Calls.{Keeps};
ghost use Rattle.dsql_driver_session.specs.Copies.{copies_of};
ghost use Rattle.dsql_mem_session.specs.Calls.{shown};
ghost use Rattle.dsql_mem_calls.specs.Effect.{effect, effect_unless, carried_out, taken_back};

use dsql_driver::{Answered, DriverAnswer, DriverCall};
use dsql_driver_session::{
    Session, copies_of, copies_of_done, copies_of_failure, copies_of_result,
};
use dsql_mem_session::{
    Found, MemSession, NO_SUCH_HANDLE, NO_TRANSACTION, NUMBERS_SPENT, Outcome, execute_in,
    prepare_in, query_in,
};
use dsql_mem_store::Store;
use dsql_value::Memory;
use std::alloc::Global;

/// Carries out one driver call of a session, as a driver would. An answer of `Memory` leaves all as it was.
pub fn apply(
    alloc: Global,
    store: &mut Store,
    session: &mut MemSession,
    call: &DriverCall,
) -> Answered
    ensures copied { result.copy ≡ result.answer }
    ensures answer { is_memory result.answer ≡ false → result.answer ≡ (effect store.old session.old call.now).answer }
    ensures store { store.new
        ≡ (if is_memory result.answer then store.old else (effect store.old session.old call.now).store) }
    ensures session { session.new
        ≡ (if is_memory result.answer then session.old else (effect store.old session.old call.now).session) }
{
    match step(alloc, store, session, call) {
        Ok(answered) => answered,
        Err(Memory) => Answered {
            answer: DriverAnswer::Memory,
            copy: DriverAnswer::Memory,
        },
    }
}

/// Carries out one driver call of a session. Fails with `Memory` if memory is lacking, and then leaves all as
/// it was.
pub fn step(
    alloc: Global,
    store: &mut Store,
    session: &mut MemSession,
    call: &DriverCall,
) -> Result<Answered, Memory>
    ensures answer { IfOk result (λ answered. answered ≡ copies_of (effect store.old session.old call.now).answer) }
    ensures store { OnOk result (store.new ≡ (effect store.old session.old call.now).store) }
    ensures session { OnOk result (session.new ≡ (effect store.old session.old call.now).session) }
    ensures store_stays { OnErr result (store.new ≡ store.old) }
    ensures session_stays { OnErr result (session.new ≡ session.old) }
{
    match call {
        DriverCall::Connect | DriverCall::Valid | DriverCall::Ping => Ok(copies_of_done()),
        DriverCall::Reset | DriverCall::Shut => take_back(alloc, store, session),
        DriverCall::Prepare(text) => prepare_in(alloc, &mut session.live, text),
        DriverCall::CloseStmt(handle) => session.live.close(alloc, *handle, NO_SUCH_HANDLE),
        DriverCall::Exec(input, params) => {
            let outcome = execute_in(alloc, store, &session.live, input, params.as_slice())?;
            carry_out(alloc, store, session, outcome)
        }
        DriverCall::Query(input, params) => {
            let found = query_in(alloc, store, &session.live, input, params.as_slice())?;
            show(alloc, &mut session.live, found)
        }
        DriverCall::Next(rows) => session.live.take_row(alloc, *rows, NO_SUCH_HANDLE),
        DriverCall::CloseRows(rows) => session.live.close_rows(alloc, *rows, NO_SUCH_HANDLE),
        DriverCall::Begin { .. } => session.undo.begin(alloc),
        DriverCall::Commit => session.undo.commit(alloc),
        DriverCall::Rollback => roll_back(alloc, store, session),
    }
}

/// Answers a driver call with the fault that takes its place, or otherwise carries it out. Fails with `Memory`
/// if memory is lacking, and then leaves all as it was.
pub fn step_unless(
    fault: Option<DriverAnswer>,
    alloc: Global,
    store: &mut Store,
    session: &mut MemSession,
    call: &DriverCall,
) -> Result<Answered, Memory>
    ensures answer { IfOk result (λ answered. answered
        ≡ copies_of (effect_unless fault store.old session.old call.now).answer) }
    ensures store { OnOk result (store.new ≡ (effect_unless fault store.old session.old call.now).store) }
    ensures session { OnOk result (session.new ≡ (effect_unless fault store.old session.old call.now).session) }
    ensures store_stays { OnErr result (store.new ≡ store.old) }
    ensures session_stays { OnErr result (session.new ≡ session.old) }
{
    match fault {
        Some(fault) => copies_of(fault),
        None => step(alloc, store, session, call),
    }
}

/// Carries out the outcome of a command, or answers why the command is refused.
fn carry_out(
    alloc: Global,
    store: &mut Store,
    session: &mut MemSession,
    outcome: Outcome,
) -> Result<Answered, Memory>
    ensures answer { IfOk result (λ answered. answered ≡ copies_of (carried_out store.old session.old outcome).answer) }
    ensures store { OnOk result (store.new ≡ (carried_out store.old session.old outcome).store) }
    ensures session { OnOk result (session.new ≡ (carried_out store.old session.old outcome).session) }
    ensures store_stays { OnErr result (store.new ≡ store.old) }
    ensures session_stays { OnErr result (session.new ≡ session.old) }
{
    match outcome {
        Outcome::Write {
            key,
            value,
            affected,
        } => {
            session.undo.write(alloc, store, &key, value)?;
            Ok(copies_of_result(0, affected))
        }
        Outcome::Refused(answer) => copies_of(answer),
    }
}

/// Rolls back the session's transaction, or answers with a failure if none is open.
fn roll_back(alloc: Global, store: &mut Store, session: &mut MemSession) -> Result<Answered, Memory>
    ensures answer { IfOk result (λ answered. answered
        ≡ copies_of (effect store.old session.old DriverCall.Rollback).answer) }
    ensures store { OnOk result (store.new ≡ (effect store.old session.old DriverCall.Rollback).store) }
    ensures session { OnOk result (session.new ≡ (effect store.old session.old DriverCall.Rollback).session) }
    ensures store_stays { OnErr result (store.new ≡ store.old) }
    ensures session_stays { OnErr result (session.new ≡ session.old) }
{
    if session.undo.is_open() {
        take_back(alloc, store, session)
    } else {
        copies_of_failure(alloc, NO_TRANSACTION)
    }
}

/// Takes back what the session wrote in its open transaction, if there is one, and ends it.
fn take_back(alloc: Global, store: &mut Store, session: &mut MemSession) -> Result<Answered, Memory>
    ensures answer { IfOk result (λ answered. answered ≡ copies_of (taken_back store.old session.old).answer) }
    ensures store { OnOk result (store.new ≡ (taken_back store.old session.old).store) }
    ensures session { OnOk result (session.new ≡ (taken_back store.old session.old).session) }
    ensures store_stays { OnErr result (store.new ≡ store.old) }
    ensures session_stays { OnErr result (session.new ≡ session.old) }
{
    if let Some(notes) = session.undo.notes() {
        *store = store.before(alloc, notes)?;
    }
    session.undo.forget();
    Ok(copies_of_done())
}

/// Opens a cursor on what a query found, or answers why the query is refused.
fn show(alloc: Global, session: &mut Session, found: Found) -> Result<Answered, Memory>
    ensures served { IfOk result (λ answered. Keeps (shown session.old found) answered session.new) }
    ensures stays { OnErr result (session.new ≡ session.old) }
{
    match found {
        Found::Rows(set) => session.open(alloc, set, NUMBERS_SPENT),
        Found::Refused(answer) => copies_of(answer),
    }
}

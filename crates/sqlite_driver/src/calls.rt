//! What each driver call does to a session and the database.
ghost use Rattle.std.specs.Prelude.{◌≡◌, true, false, codes, option_map, IsOk, IfOk, OnErr};
ghost use Rattle.dsql_driver.specs.Fits.{is_done};
ghost use Rattle.sqlite_driver.specs.Holder.{MayHold, ends_own_transaction, ends_transaction, is_cut_off, is_held_by, is_held_by_other, needs_database};
ghost use Rattle.sqlite_driver.specs.Served.{IsTwice, Serves, ServesPrepare, ServesQuery, is_done_or_bad, is_done_or_fail, is_executed, is_fail};
ghost use Rattle.sqlite_driver.specs.Connection.{Issues, RollsBack};
ghost use Rattle.sqlite_driver.specs.Used.{Begins, Does, Execs, LeavesAlone, Prepares, Queries, Releases, Uses, input_text};

use crate::database::Database;
use crate::failure::Failure;
use dsql_driver::{Answered, DriverAnswer, DriverCall, Input, Level};
use dsql_driver_session::{Session, copies_of_done, copies_of_failure, copies_of_result};
use dsql_value::{Memory, Param, Txt};
use std::alloc::Global;

const NO_SUCH_HANDLE: &str = "sqlite: no such handle";

const NO_SUCH_CURSOR: &str = "sqlite: no such cursor";

const NUMBERS_SPENT: &str = "sqlite: numbers spent";

const LOCKED: &str = "database is locked";

const OUT_OF_MEMORY: &str = "out of memory";

const NO_SUCH_LEVEL: &str = "sqlite: isolation level is not supported";

const NO_READ_ONLY: &str = "sqlite: read-only transaction is not supported";

/// Carries out a driver call of the wire with this number. While another wire holds the database, a call that needs it
/// is refused. Fails for want of memory only if nothing has been done.
pub(crate) fn carry_out(
    alloc: Global,
    session: &mut Session,
    database: &mut Database,
    who: u32,
    call: &DriverCall,
) -> Result<Answered, Memory>
    ensures served { IfOk result (λ answered. Serves call.now answered session.old session.new) }
    ensures used { IfOk result (λ answered. Uses who call.now answered.answer session.old session.new
        database.old database.new) }
    ensures stays { OnErr result (session.new ≡ session.old) }
    ensures undone { OnErr result (LeavesAlone database.old database.new) }
{
    if needs_database(call) && database.is_held_by_other(who) {
        let answered = copies_of_failure(alloc, LOCKED)?;
        return Ok(answered);
    }
    let answered = serve(alloc, session, database, who, call)?;
    Ok(answered)
}

/// Returns true if the call reads or writes the database.
fn needs_database(call: &DriverCall) -> bool
    ensures { result ≡ needs_database call.now }
{
    matches!(
        call,
        DriverCall::Prepare(_)
            | DriverCall::Exec(_, _)
            | DriverCall::Query(_, _)
            | DriverCall::Begin { .. }
    )
}

/// Carries out a driver call. If it needs the database, no other wire holds that.
fn serve(
    alloc: Global,
    session: &mut Session,
    database: &mut Database,
    who: u32,
    call: &DriverCall,
) -> Result<Answered, Memory>
    requires { needs_database call.now ≡ true → is_held_by_other who database.old.holder ≡ false }
    ensures served { IfOk result (λ answered. Serves call.now answered session.old session.new) }
    ensures does { IfOk result (λ answered. Does who call.now answered.answer session.old session.new
        database.old database.new) }
    ensures held { is_held_by_other who database.old.holder ≡ true → database.new ≡ database.old }
    ensures fails { needs_database call.now ≡ true
        → IfOk result (λ answered. is_cut_off who database.old.connection database.old.holder ≡ true
        → is_fail answered.answer ≡ true) }
    ensures rests { needs_database call.now ≡ true
        → is_cut_off who database.old.connection database.old.holder ≡ true → database.new ≡ database.old }
    ensures had { ends_own_transaction call.now ≡ true
        → IfOk result (λ answered. is_done answered.answer ≡ true → is_held_by who database.old.holder ≡ true) }
    ensures over { ends_transaction call.now ≡ true
        → IfOk result (λ answered. is_done answered.answer ≡ true → is_held_by who database.new.holder ≡ false) }
    ensures holds { MayHold who database.old.holder database.new.holder }
    ensures stays { OnErr result (session.new ≡ session.old) }
    ensures undone { OnErr result (LeavesAlone database.old database.new) }
{
    match call {
        DriverCall::Connect | DriverCall::Valid | DriverCall::Ping => Ok(copies_of_done()),
        DriverCall::Reset | DriverCall::Shut => Ok(release(database, who)),
        DriverCall::Prepare(text) => prepare(alloc, session, database, who, text),
        DriverCall::CloseStmt(handle) => session.close(alloc, *handle, NO_SUCH_HANDLE),
        DriverCall::Exec(input, params) => {
            let answered = execute(alloc, session, database, who, input, params.as_slice())?;
            Ok(answered)
        }
        DriverCall::Query(input, params) => {
            query(alloc, session, database, who, input, params.as_slice())
        }
        DriverCall::Next(rows) => session.take_row(alloc, *rows, NO_SUCH_CURSOR),
        DriverCall::CloseRows(rows) => session.close_rows(alloc, *rows, NO_SUCH_CURSOR),
        DriverCall::Begin { level, read_only } => {
            let answered = begin(alloc, database, who, *level, *read_only)?;
            Ok(answered)
        }
        DriverCall::Commit => {
            let answered = commit(alloc, database, who)?;
            Ok(answered)
        }
        DriverCall::Rollback => {
            let answered = roll_back(alloc, database, who)?;
            Ok(answered)
        }
    }
}

/// Prepares a text. SQLite only compiles it, so nothing has been done if there is no memory for the handle.
fn prepare(
    alloc: Global,
    session: &mut Session,
    database: &mut Database,
    who: u32,
    text: &Txt,
) -> Result<Answered, Memory>
    ensures served { IfOk result (λ answered. ServesPrepare text.now answered session.old session.new) }
    ensures prepares { IfOk result (λ answered. is_fail answered.answer ≡ false
        → Prepares text.now answered.answer session.old database.old.connection database.new.connection) }
    ensures fails { IfOk result (λ answered. is_cut_off who database.old.connection database.old.holder ≡ true
        → is_fail answered.answer ≡ true) }
    ensures rests { is_cut_off who database.old.connection database.old.holder ≡ true → database.new ≡ database.old }
    ensures holder { database.new.holder ≡ database.old.holder }
    ensures stays { OnErr result (session.new ≡ session.old) }
    ensures undone { OnErr result (LeavesAlone database.old database.new) }
{
    let spare = refuse(alloc, OUT_OF_MEMORY)?;
    match database.inputs(who, text.as_str()) {
        Ok(inputs) => {
            let answered = session.prepare(alloc, text, inputs, NUMBERS_SPENT)?;
            Ok(answered)
        }
        Err(failure) => Ok(failure.answer_or(alloc, spare)),
    }
}

/// Executes a statement.
fn execute(
    alloc: Global,
    session: &Session,
    database: &mut Database,
    who: u32,
    input: &Input,
    params: &[Param],
) -> Result<Answered, Memory>
    ensures answer { IfOk result (IsTwice is_executed) }
    ensures execs { IfOk result (λ answered. is_fail answered.answer ≡ false
        → Execs input.now params.now answered.answer session.now database.old.connection database.new.connection) }
    ensures fails { IfOk result (λ answered. is_cut_off who database.old.connection database.old.holder ≡ true
        → is_fail answered.answer ≡ true) }
    ensures rests { is_cut_off who database.old.connection database.old.holder ≡ true → database.new ≡ database.old }
    ensures holds { MayHold who database.old.holder database.new.holder }
    ensures undone { OnErr result (database.new ≡ database.old) }
{
    let Some(text) = text_of(session, input) else {
        let answered = refuse(alloc, NO_SUCH_HANDLE)?;
        return Ok(answered);
    };
    let spare = refuse(alloc, OUT_OF_MEMORY)?;
    match database.execute(alloc, who, text, params) {
        Ok(executed) => Ok(copies_of_result(executed.last, executed.affected)),
        Err(failure) => Ok(failure.answer_or(alloc, spare)),
    }
}

/// Queries a statement, and opens a cursor over its rows. If there is no memory for the cursor, the answer is a
/// failure, because the statement may have written to the database.
fn query(
    alloc: Global,
    session: &mut Session,
    database: &mut Database,
    who: u32,
    input: &Input,
    params: &[Param],
) -> Result<Answered, Memory>
    ensures served { IfOk result (λ answered. ServesQuery answered session.old session.new) }
    ensures queries { IfOk result (λ answered. is_fail answered.answer ≡ false
        → Queries input.now params.now answered.answer session.old session.new
        database.old.connection database.new.connection) }
    ensures fails { IfOk result (λ answered. is_cut_off who database.old.connection database.old.holder ≡ true
        → is_fail answered.answer ≡ true) }
    ensures rests { is_cut_off who database.old.connection database.old.holder ≡ true → database.new ≡ database.old }
    ensures holds { MayHold who database.old.holder database.new.holder }
    ensures stays { OnErr result (session.new ≡ session.old) }
    ensures undone { OnErr result (database.new ≡ database.old) }
{
    let Some(text) = text_of(session, input) else {
        let answered = refuse(alloc, NO_SUCH_HANDLE)?;
        return Ok(answered);
    };
    let spare = refuse(alloc, OUT_OF_MEMORY)?;
    match database.query(alloc, who, text, params) {
        Ok(set) => match session.open(alloc, set, NUMBERS_SPENT) {
            Ok(answered) => Ok(answered),
            Err(Memory) => Ok(spare),
        },
        Err(failure) => Ok(failure.answer_or(alloc, spare)),
    }
}

/// Returns the text that is to be run, or `None` if its handle isn't live.
fn text_of<'a>(session: &'a Session, input: &'a Input) -> Option<&'a str>
    ensures { option_map (λ text. text.now) result ≡ input_text input.now session.now }
{
    match input {
        Input::Text(text) => Some(text.as_str()),
        Input::Handle(handle) => session.text(*handle),
    }
}

/// Begins a transaction, if it may write and has the isolation that SQLite has.
fn begin(
    alloc: Global,
    database: &mut Database,
    who: u32,
    level: Level,
    read_only: bool,
) -> Result<Answered, Memory>
    ensures answer { IfOk result (IsTwice is_done_or_fail) }
    ensures begins { IfOk result (λ answered. is_fail answered.answer ≡ false
        → Begins level read_only database.old.connection database.new.connection) }
    ensures fails { IfOk result (λ answered. is_cut_off who database.old.connection database.old.holder ≡ true
        → is_fail answered.answer ≡ true) }
    ensures rests { is_cut_off who database.old.connection database.old.holder ≡ true → database.new ≡ database.old }
    ensures holds { MayHold who database.old.holder database.new.holder }
    ensures undone { OnErr result (database.new ≡ database.old) }
{
    if !matches!(level, Level::Default | Level::Serializable) {
        let answered = refuse(alloc, NO_SUCH_LEVEL)?;
        return Ok(answered);
    }
    if read_only {
        let answered = refuse(alloc, NO_READ_ONLY)?;
        return Ok(answered);
    }
    let spare = refuse(alloc, OUT_OF_MEMORY)?;
    let begun = database.begin(who);
    Ok(done_or(alloc, begun, spare))
}

/// Commits the wire's transaction.
fn commit(alloc: Global, database: &mut Database, who: u32) -> Result<Answered, Memory>
    ensures answer { IfOk result (IsTwice is_done_or_fail) }
    ensures commits { IfOk result (λ answered. is_fail answered.answer ≡ false
        → Issues (codes "COMMIT") true database.old.connection database.new.connection) }
    ensures had { IfOk result (λ answered. is_done answered.answer ≡ true → is_held_by who database.old.holder ≡ true) }
    ensures held { is_held_by_other who database.old.holder ≡ true → database.new ≡ database.old }
    ensures over { IfOk result (λ answered. is_done answered.answer ≡ true
        → is_held_by who database.new.holder ≡ false) }
    ensures holds { MayHold who database.old.holder database.new.holder }
    ensures undone { OnErr result (database.new ≡ database.old) }
{
    let spare = refuse(alloc, OUT_OF_MEMORY)?;
    let committed = database.commit(who);
    Ok(done_or(alloc, committed, spare))
}

/// Rolls back the wire's transaction.
fn roll_back(alloc: Global, database: &mut Database, who: u32) -> Result<Answered, Memory>
    ensures answer { IfOk result (IsTwice is_done_or_fail) }
    ensures rolls_back { IfOk result (λ answered. is_fail answered.answer ≡ false
        → RollsBack database.old.connection database.new.connection) }
    ensures had { IfOk result (λ answered. is_done answered.answer ≡ true → is_held_by who database.old.holder ≡ true) }
    ensures held { is_held_by_other who database.old.holder ≡ true → database.new ≡ database.old }
    ensures over { IfOk result (λ answered. is_done answered.answer ≡ true
        → is_held_by who database.new.holder ≡ false) }
    ensures holds { MayHold who database.old.holder database.new.holder }
    ensures undone { OnErr result (database.new ≡ database.old) }
{
    let spare = refuse(alloc, OUT_OF_MEMORY)?;
    let rolled_back = database.roll_back(who);
    Ok(done_or(alloc, rolled_back, spare))
}

/// Rolls back the wire's transaction if one is open. If SQLite can't, the answer is Bad, and the transaction is open
/// still.
fn release(database: &mut Database, who: u32) -> Answered
    ensures answer { IsTwice is_done_or_bad result }
    ensures releases { Releases who result.answer database.old database.new }
    ensures held { is_held_by_other who database.old.holder ≡ true → database.new ≡ database.old }
    ensures over { is_done result.answer ≡ true → is_held_by who database.new.holder ≡ false }
    ensures holds { MayHold who database.old.holder database.new.holder }
{
    if database.release(who) {
        copies_of_done()
    } else {
        Answered {
            answer: DriverAnswer::Bad,
            copy: DriverAnswer::Bad,
        }
    }
}

/// Returns the answer Done, or the one that says what failed. The spare one serves if there is no memory for that.
fn done_or(alloc: Global, outcome: Result<(), Failure>, spare: Answered) -> Answered
    requires { IsTwice is_fail spare }
    ensures answer { IsTwice is_done_or_fail result }
    ensures done { is_done result.answer ≡ true → IsOk outcome }
    ensures succeeds { is_fail result.answer ≡ false → IsOk outcome }
{
    match outcome {
        Ok(()) => copies_of_done(),
        Err(failure) => failure.answer_or(alloc, spare),
    }
}

/// Returns the answer that a call failed with this text.
fn refuse(alloc: Global, text: &str) -> Result<Answered, Memory>
    ensures { IfOk result (IsTwice is_fail) }
{
    let answered = copies_of_failure(alloc, text)?;
    Ok(answered)
}

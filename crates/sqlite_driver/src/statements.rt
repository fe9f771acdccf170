//! Statements of SQL on the one connection to SQLite. For parameters that stand in their places, contracts say by the
//! definitions of the crate sqlite what a text means with these values.
ghost use Rattle.std.specs.Prelude.{◌≡◌, ◌≤◌, true, false, IfOk, is_ok};
ghost use Rattle.sqlite.specs.Held.{state};
ghost use Rattle.sqlite.specs.Listing.{understood};
ghost use Rattle.sqlite.specs.State.{HasCleanDisk, Executes, IsUnchanged, Shown};
ghost use Rattle.sqlite.specs.Steps.{Outlines};
ghost use Rattle.sqlite_trees.specs.View.{doubt};
ghost use Rattle.sqlite_driver.specs.Connection.{CompilesOver, FindsOver, IssuesOver, RunsOver, are_by_place, count_of};
ghost use Rattle.sqlite_driver.specs.Values.{sql_values};

use crate::failure::Failure;
use crate::parameters::{are_by_place, by_name, by_place};
use crate::rows::{columns_of, shown_rows};
use dsql_driver_session::ResultSet;
use dsql_value::Param;
use sqlite::{Alter, Connection, Error, Row, Statement};
use std::alloc::Global;

/// What SQLite says of a statement that it executed: the last row identifier that it gave, and how many rows the
/// statement changed.
#[derive(Clone, Copy)]
pub(crate) struct Executed {
    pub last: i64,
    pub affected: i64,
}

/// Compiles a text and returns the number of its inputs.
pub(crate) fn inputs<S: Alter>(connection: &mut Connection<S>, text: &str) -> Result<u16, Failure>
    ensures compiles { IfOk result (λ inputs. CompilesOver S.Store text.now inputs connection.old connection.new) }
    ensures mode { connection.old.in_transaction ≡ false → connection.new.in_transaction ≡ false }
{
    let statement = compiled(connection, text)?;
    match u16::try_from(statement.parameter_count()) {
        Ok(inputs) => Ok(inputs),
        Err(_) => Err(Failure::TooManyInputs),
    }
}

/// Executes a text that is no query.
pub(crate) fn execute<S: Alter>(
    alloc: Global,
    connection: &mut Connection<S>,
    text: &str,
    params: &[Param],
) -> Result<Executed, Failure>
    ensures { IfOk result (λ executed. RunsOver S.Store text.now params.now executed connection.old connection.new) }
{
    let changed = changed_by(alloc, connection, text, params)?;
    Ok(Executed {
        last: connection.last_insert_rowid(),
        affected: count_of(changed),
    })
}

/// Returns the number of rows that a result has, which is at most the largest one.
fn count_of(rows: usize) -> i64
    ensures { result ≡ count_of rows }
{
    rows.min(i64::MAX as usize) as i64
}

/// Executes a text without inputs that begins or ends a transaction.
pub(crate) fn execute_plain<S: Alter>(
    connection: &mut Connection<S>,
    text: &str,
) -> Result<(), Failure>
    ensures { IssuesOver S.Store text.now (is_ok result) connection.old connection.new }
{
    match connection.execute(text, &[]) {
        Ok(_) => Ok(()),
        Err(error) => Err(Failure::Sqlite(error)),
    }
}

/// Queries a text, and reads all rows of its answer.
pub(crate) fn query<S: Alter>(
    alloc: Global,
    connection: &mut Connection<S>,
    text: &str,
    params: &[Param],
) -> Result<ResultSet, Failure>
    ensures { IfOk result (λ set. FindsOver S.Store text.now params.now set connection.old connection.new) }
{
    let statement = compiled(connection, text)?;
    let columns = columns_of(alloc, &statement)?;
    let found = rows_of(alloc, connection, &statement, text, params)?;
    let rows = shown_rows(alloc, found.as_slice())?;
    match ResultSet::new(columns, rows) {
        Some(set) => Ok(set),
        None => Err(Failure::OtherWidth),
    }
}

/// Compiles a text.
fn compiled<S: Alter>(connection: &mut Connection<S>, text: &str) -> Result<Statement, Failure>
    ensures unchanged { HasCleanDisk (state S.Store connection.new) → IfOk result (λ statement.
        IsUnchanged (state S.Store connection.old) (state S.Store connection.new)) }
    ensures outlines { HasCleanDisk (state S.Store connection.new) → IfOk result (λ statement.
        Outlines (understood (state S.Store connection.old).now.schema text.now) statement) }
    ensures mode { connection.old.in_transaction ≡ false → connection.new.in_transaction ≡ false }
{
    let statement = connection.prepare(text)?;
    Ok(statement)
}

/// Runs a text that is no query, and returns how many rows it changed.
fn changed_by<S: Alter>(
    alloc: Global,
    connection: &mut Connection<S>,
    text: &str,
    params: &[Param],
) -> Result<usize, Failure>
    ensures { are_by_place params.now ≡ true → HasCleanDisk (state S.Store connection.new)
        → IfOk result (λ changed. Executes text.now (sql_values params.now)
        (state S.Store connection.old) (state S.Store connection.new) (Ok changed)) }
{
    if are_by_place(params) {
        let changed = run(alloc, connection, text, params)?;
        Ok(changed)
    } else {
        let changed = run_named(alloc, connection, text, params)?;
        Ok(changed)
    }
}

/// Runs a compiled query, and returns its rows.
fn rows_of<S: Alter>(
    alloc: Global,
    connection: &mut Connection<S>,
    statement: &Statement,
    text: &str,
    params: &[Param],
) -> Result<Vec<Row>, Failure>
    ensures shown { are_by_place params.now ≡ true → HasCleanDisk (state S.Store connection.new)
        → IfOk result (λ rows. Shown text.now (sql_values params.now)
        (state S.Store connection.old) (state S.Store connection.new) rows.items) }
    ensures clean { doubt (state S.Store connection.old).is_clean ≤ doubt (state S.Store connection.new).is_clean }
{
    if are_by_place(params) {
        let rows = ask(alloc, connection, text, params)?;
        Ok(rows)
    } else {
        let rows = ask_named(alloc, connection, statement, params)?;
        Ok(rows)
    }
}

/// Runs a text that is no query with parameters in their places, and returns how many rows it changed.
fn run<S: Alter>(
    alloc: Global,
    connection: &mut Connection<S>,
    text: &str,
    params: &[Param],
) -> Result<usize, Error>
    ensures { HasCleanDisk (state S.Store connection.new) → IfOk result (λ changed. Executes text.now
        (sql_values params.now) (state S.Store connection.old) (state S.Store connection.new) (Ok changed)) }
{
    let values = by_place(alloc, params)?;
    let changed = connection.execute(text, values.as_slice())?;
    Ok(changed)
}

/// Runs a query with parameters in their places, and returns its rows.
fn ask<S: Alter>(
    alloc: Global,
    connection: &mut Connection<S>,
    text: &str,
    params: &[Param],
) -> Result<Vec<Row>, Error>
    ensures shown { HasCleanDisk (state S.Store connection.new) → IfOk result (λ rows. Shown text.now
        (sql_values params.now) (state S.Store connection.old) (state S.Store connection.new) rows.items) }
    ensures clean { doubt (state S.Store connection.old).is_clean ≤ doubt (state S.Store connection.new).is_clean }
{
    let values = by_place(alloc, params)?;
    let rows = connection.query_all(text, values.as_slice())?;
    Ok(rows)
}

/// Runs a text that is no query with parameters of which some have names.
fn run_named<S: Alter>(
    alloc: Global,
    connection: &mut Connection<S>,
    text: &str,
    params: &[Param],
) -> Result<usize, Failure> {
    let statement = compiled(connection, text)?;
    let values = by_name(alloc, &statement, params)?;
    let affected = statement.execute(connection, values.as_slice())?;
    Ok(affected)
}

/// Runs a compiled query with parameters of which some have names.
fn ask_named<S: Alter>(
    alloc: Global,
    connection: &mut Connection<S>,
    statement: &Statement,
    params: &[Param],
) -> Result<Vec<Row>, Failure>
    ensures clean { doubt (state S.Store connection.old).is_clean ≤ doubt (state S.Store connection.new).is_clean }
{
    let values = by_name(alloc, statement, params)?;
    let rows = statement.query_all(connection, values.as_slice())?;
    Ok(rows)
}

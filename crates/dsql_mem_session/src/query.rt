ghost use Rattle.std.specs.Prelude.{◌≡◌, IfOk};
ghost use Rattle.dsql_mem_session.specs.Calls.{found, queried, queried_text, queried_prepared, queried_in};
ghost use Rattle.dsql_mem_session.specs.Spelled.{spelled};
ghost use Rattle.dsql_mem_session.specs.Statement.{statement_of};

use crate::failures::{
    KEY_IS_NOT_TEXT, NO_SUCH_HANDLE, NO_SUCH_STATEMENT, NOT_A_QUERY, WRONG_ARGUMENTS,
};
use crate::filled::key_for;
use crate::shape::Shape;
use crate::statement::Statement;
use dsql_driver::{DriverAnswer, Input};
use dsql_driver_session::{ResultSet, Session};
use dsql_mem_store::Store;
use dsql_value::{Memory, Param, Txt};
use std::alloc::Global;

/// The outcome of a query: its columns and rows, or an answer that says why there are none.
#[derive(Drop)]
pub enum Found {
    Rows(ResultSet),
    Refused(DriverAnswer),
}

impl Found {
    /// Returns the refusal of a query that failed with this text.
    fn failure(alloc: Global, text: &str) -> Result<Found, Memory>
        ensures { IfOk result (λ found. found ≡ Found.Refused (DriverAnswer.Fail text.now)) }
    {
        let text = Txt::copy_of(alloc, text)?;
        Ok(Found::Refused(DriverAnswer::Fail(text)))
    }
}

/// Returns what a query finds in a session.
pub fn query_in(
    alloc: Global,
    store: &Store,
    session: &Session,
    input: &Input,
    params: &[Param],
) -> Result<Found, Memory>
    ensures { IfOk result (λ found. found ≡ queried_in store.now session.now input.now params.now) }
{
    match input {
        Input::Text(_) if !params.is_empty() => Ok(Found::Refused(DriverAnswer::Skip)),
        Input::Text(text) => query_text(alloc, store, text.as_str()),
        Input::Handle(handle) => match session.text(*handle) {
            Some(text) => query_prepared(alloc, store, text, params),
            None => Found::failure(alloc, NO_SUCH_HANDLE),
        },
    }
}

/// Returns what a text without parameters finds. A text with inputs must be prepared first.
fn query_text(alloc: Global, store: &Store, text: &str) -> Result<Found, Memory>
    ensures { IfOk result (λ found. found ≡ queried_text store.now (statement_of text.now)) }
{
    match Statement::parse(text) {
        None => Found::failure(alloc, NO_SUCH_STATEMENT),
        Some(statement) if statement.inputs() > 0 => Ok(Found::Refused(DriverAnswer::Skip)),
        Some(statement) => ask(alloc, store, &statement, &[]),
    }
}

/// Returns what a prepared text finds.
fn query_prepared(
    alloc: Global,
    store: &Store,
    text: &str,
    params: &[Param],
) -> Result<Found, Memory>
    ensures { IfOk result (λ found. found ≡ queried_prepared store.now (statement_of text.now) params.now) }
{
    match Statement::parse(text) {
        None => Found::failure(alloc, NO_SUCH_STATEMENT),
        Some(statement) => ask(alloc, store, &statement, params),
    }
}

/// Returns what a statement finds, if it is a query and has as many inputs as there are parameters. Otherwise
/// returns its refusal.
fn ask(
    alloc: Global,
    store: &Store,
    statement: &Statement<'_>,
    params: &[Param],
) -> Result<Found, Memory>
    ensures { IfOk result (λ found. found ≡ queried store.now (spelled statement.now) params.now) }
{
    if !statement.is_query() {
        return Found::failure(alloc, NOT_A_QUERY);
    }
    if params.len() != usize::from(statement.inputs()) {
        return Found::failure(alloc, WRONG_ARGUMENTS);
    }
    find(alloc, store, statement, params)
}

/// Returns what a query finds. It has as many parameters as inputs.
fn find(
    alloc: Global,
    store: &Store,
    statement: &Statement<'_>,
    params: &[Param],
) -> Result<Found, Memory>
    ensures { IfOk result (λ rows. rows ≡ found store.now (spelled statement.now) params.now) }
{
    match statement {
        Statement::Get { key } => match key_for(key, params) {
            Some(key) => {
                let entries = store.entry(alloc, key)?;
                Ok(Found::Rows(Shape::Values.result_set(alloc, &entries)?))
            }
            None => Found::failure(alloc, KEY_IS_NOT_TEXT),
        },
        Statement::ListKeys { prefix } => match key_for(prefix, params) {
            Some(prefix) => {
                let entries = store.list(alloc, prefix)?;
                Ok(Found::Rows(Shape::Entries.result_set(alloc, &entries)?))
            }
            None => Found::failure(alloc, KEY_IS_NOT_TEXT),
        },
        Statement::Set { .. } | Statement::Add { .. } | Statement::Del { .. } => {
            Found::failure(alloc, NOT_A_QUERY)
        }
    }
}

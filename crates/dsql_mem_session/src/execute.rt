ghost use Rattle.std.specs.Prelude.{◌≡◌, IfOk};
ghost use Rattle.dsql_mem_session.specs.Calls.{added, commanded, deleted, executed, executed_prepared, executed_text, executed_in};
ghost use Rattle.dsql_mem_session.specs.Spelled.{spelled};
ghost use Rattle.dsql_mem_session.specs.Statement.{statement_of};

use crate::failures::{
    KEY_IS_NOT_TEXT, NO_SUCH_HANDLE, NO_SUCH_STATEMENT, NOT_A_COMMAND, NOT_A_NUMBER, OUT_OF_RANGE,
    WRONG_ARGUMENTS,
};
use crate::filled::{key_for, left_after, value_for};
use crate::statement::Statement;
use dsql_driver::{DriverAnswer, Input};
use dsql_driver_session::Session;
use dsql_mem_store::Store;
use dsql_value::{Memory, Param, Txt, Value};
use std::alloc::Global;

/// The outcome of a command: a write, or an answer that says why there is none.
#[derive(Drop)]
pub enum Outcome {
    /// The key gets the value, or is deleted if there is none. `affected` counts the entries that are affected.
    Write {
        key: Txt,
        value: Option<Value>,
        affected: i64,
    },
    Refused(DriverAnswer),
}

impl Outcome {
    /// Returns the refusal of a command that failed with this text.
    fn failure(alloc: Global, text: &str) -> Result<Outcome, Memory>
        ensures { IfOk result (λ outcome. outcome ≡ Outcome.Refused (DriverAnswer.Fail text.now)) }
    {
        let text = Txt::copy_of(alloc, text)?;
        Ok(Outcome::Refused(DriverAnswer::Fail(text)))
    }
}

/// Returns the outcome of a command in a session.
pub fn execute_in(
    alloc: Global,
    store: &Store,
    session: &Session,
    input: &Input,
    params: &[Param],
) -> Result<Outcome, Memory>
    ensures { IfOk result (λ outcome. outcome ≡ executed_in store.now session.now input.now params.now) }
{
    match input {
        Input::Text(_) if !params.is_empty() => Ok(Outcome::Refused(DriverAnswer::Skip)),
        Input::Text(text) => execute_text(alloc, store, text.as_str()),
        Input::Handle(handle) => match session.text(*handle) {
            Some(text) => execute_prepared(alloc, store, text, params),
            None => Outcome::failure(alloc, NO_SUCH_HANDLE),
        },
    }
}

/// Returns the outcome of a text without parameters. A text with inputs must be prepared first.
fn execute_text(alloc: Global, store: &Store, text: &str) -> Result<Outcome, Memory>
    ensures { IfOk result (λ outcome. outcome ≡ executed_text store.now (statement_of text.now)) }
{
    match Statement::parse(text) {
        None => Outcome::failure(alloc, NO_SUCH_STATEMENT),
        Some(statement) if statement.inputs() > 0 => Ok(Outcome::Refused(DriverAnswer::Skip)),
        Some(statement) => command(alloc, store, &statement, &[]),
    }
}

/// Returns the outcome of a prepared text.
fn execute_prepared(
    alloc: Global,
    store: &Store,
    text: &str,
    params: &[Param],
) -> Result<Outcome, Memory>
    ensures { IfOk result (λ outcome. outcome ≡ executed_prepared store.now (statement_of text.now) params.now) }
{
    match Statement::parse(text) {
        None => Outcome::failure(alloc, NO_SUCH_STATEMENT),
        Some(statement) => command(alloc, store, &statement, params),
    }
}

/// Returns the outcome of a statement, if it is a command and has as many inputs as there are parameters.
/// Otherwise returns its refusal.
fn command(
    alloc: Global,
    store: &Store,
    statement: &Statement<'_>,
    params: &[Param],
) -> Result<Outcome, Memory>
    ensures { IfOk result (λ outcome. outcome ≡ executed store.now (spelled statement.now) params.now) }
{
    if statement.is_query() {
        return Outcome::failure(alloc, NOT_A_COMMAND);
    }
    if params.len() != usize::from(statement.inputs()) {
        return Outcome::failure(alloc, WRONG_ARGUMENTS);
    }
    outcome_of(alloc, store, statement, params)
}

/// Returns the outcome of a command. It has as many parameters as inputs.
fn outcome_of(
    alloc: Global,
    store: &Store,
    statement: &Statement<'_>,
    params: &[Param],
) -> Result<Outcome, Memory>
    ensures { IfOk result (λ outcome. outcome ≡ commanded store.now (spelled statement.now) params.now) }
{
    match statement {
        Statement::Set { key, value } => {
            let Some(name) = key_for(key, params) else {
                return Outcome::failure(alloc, KEY_IS_NOT_TEXT);
            };
            let value = value_for(alloc, value, left_after(key, params))?;
            Ok(Outcome::Write {
                key: Txt::copy_of(alloc, name)?,
                value: Some(value),
                affected: 1,
            })
        }
        Statement::Add { key, value } => {
            let Some(name) = key_for(key, params) else {
                return Outcome::failure(alloc, KEY_IS_NOT_TEXT);
            };
            let value = value_for(alloc, value, left_after(key, params))?;
            add(alloc, store, name, &value)
        }
        Statement::Del { key } => match key_for(key, params) {
            Some(name) => delete(alloc, store, name),
            None => Outcome::failure(alloc, KEY_IS_NOT_TEXT),
        },
        Statement::Get { .. } | Statement::ListKeys { .. } => {
            Outcome::failure(alloc, NOT_A_COMMAND)
        }
    }
}

/// Returns the outcome of adding a number to a key's number, which is 0 if the key isn't there.
fn add(alloc: Global, store: &Store, key: &str, value: &Value) -> Result<Outcome, Memory>
    ensures { IfOk result (λ outcome. outcome ≡ added store.now key.now value.now) }
{
    let Value::Int(by) = value else {
        return Outcome::failure(alloc, NOT_A_NUMBER);
    };
    let number = match store.get(key) {
        None => 0,
        Some(Value::Int(number)) => *number,
        Some(_) => return Outcome::failure(alloc, NOT_A_NUMBER),
    };
    match number.checked_add(*by) {
        Some(sum) => Ok(Outcome::Write {
            key: Txt::copy_of(alloc, key)?,
            value: Some(Value::Int(sum)),
            affected: 1,
        }),
        None => Outcome::failure(alloc, OUT_OF_RANGE),
    }
}

/// Returns the outcome of deleting a key.
fn delete(alloc: Global, store: &Store, key: &str) -> Result<Outcome, Memory>
    ensures { IfOk result (λ outcome. outcome ≡ deleted store.now key.now) }
{
    let affected = if store.get(key).is_some() { 1 } else { 0 };
    Ok(Outcome::Write {
        key: Txt::copy_of(alloc, key)?,
        value: None,
        affected,
    })
}

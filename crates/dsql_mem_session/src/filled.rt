//! What the words of a statement stand for. Its inputs take the parameters in order.
ghost use Rattle.std.specs.Prelude.{◌≡◌, IfOk, option_map};
ghost use Rattle.dsql_mem_session.specs.Filled.{left_after, key_for, value_for, value_of};

use crate::number::number;
use crate::statement::is_input;
use dsql_value::{Memory, Param, Txt, Value};
use std::alloc::Global;

/// Returns the parameters that are left for the words after this one.
pub(crate) fn left_after<'a>(word: &str, params: &'a [Param]) -> &'a [Param]
    ensures { result.now ≡ left_after word.now params.now }
{
    match params {
        [_, rest @ ..] if is_input(word) => rest,
        _ => params,
    }
}

/// Returns the key that a word stands for, or `None` if that isn't a text.
pub(crate) fn key_for<'a>(word: &'a str, params: &'a [Param]) -> Option<&'a str>
    ensures { option_map (λ key. key.now) result ≡ key_for word.now params.now }
{
    match params {
        [param, ..] if is_input(word) => match &param.value {
            Value::Text(text) => Some(text.as_str()),
            _ => None,
        },
        _ => Some(word),
    }
}

/// Returns the value that a word stands for.
pub(crate) fn value_for(alloc: Global, word: &str, params: &[Param]) -> Result<Value, Memory>
    ensures { IfOk result (λ value. value ≡ value_for word.now params.now) }
{
    match params {
        [param, ..] if is_input(word) => {
            let value = param.value.clone()?;
            Ok(value)
        }
        _ => value_of(alloc, word),
    }
}

/// Returns the value that a word is.
fn value_of(alloc: Global, word: &str) -> Result<Value, Memory>
    ensures { IfOk result (λ value. value ≡ value_of word.now) }
{
    match number(word) {
        Some(number) => Ok(Value::Int(number)),
        None => {
            let text = Txt::copy_of(alloc, word)?;
            Ok(Value::Text(text))
        }
    }
}

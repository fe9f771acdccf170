//! Reads the text and the arguments of a call from its array.
ghost use Rattle.std.specs.Prelude.{None, option_map};
ghost use Rattle.serde_json.specs.View.{view, items_view, members_view};
ghost use Rattle.dsql_script_forms.specs.Outcomes.{IsShaped};
ghost use Rattle.dsql_script_forms.specs.ScriptArgs.{argument, arg_of_members, arg_of_data, named_pair, named_of_members, named_of_data, args_of, call_of_data};

use dsql_history::{Arg, Args, Items, Named, Txt};
use dsql_script_forms::{LineFault, number_arg, read_form};
use serde_json::{Map, Value};
use std::alloc::Global;

/// Reads the text and the arguments of a call from its array.
pub fn read_statement(alloc: Global, array: &Value) -> Result<(Txt, Args), LineFault>
    ensures { IsShaped result (call_of_data (view array.now)) }
{
    let Value::Array(items) = array else {
        return Err(LineFault::BadShape);
    };
    match items.as_slice() {
        [Value::String(text), rest @ ..] => {
            let text = Txt::new(text.clone()?);
            let args = read_args(alloc, rest)?;
            Ok((text, args))
        }
        _ => Err(LineFault::BadShape),
    }
}

/// Reads arguments in their order.
fn read_args(alloc: Global, items: &[Value]) -> Result<Args, LineFault>
    ensures { IsShaped result (args_of (items_view items.now)) }
{
    let mut args = Vec::new(alloc);
    for item in items {
        args.push(read_argument(alloc, item)?)?;
    }
    Ok(Items::new(args))
}

/// Reads an argument, with its name if it has one.
fn read_argument(alloc: Global, value: &Value) -> Result<Named, LineFault>
    ensures { IsShaped result (named_of_data (view value.now)) }
{
    match value {
        Value::Object(members) => read_members(alloc, members),
        _ => {
            let arg = read_arg(alloc, value)?;
            Ok(Named { name: None, arg })
        }
    }
}

/// Reads an argument from an object. The argument has a name if the object has two members.
fn read_members(alloc: Global, members: &Map<String, Value>) -> Result<Named, LineFault>
    ensures { IsShaped result (named_of_members (members_view members.now.entries)) }
{
    if members.len() != 2 {
        return read_nameless(alloc, members);
    }
    match (members.first_key_value(), members.last_key_value()) {
        (Some((first, arg)), Some((second, name))) => {
            read_named(alloc, first.as_str(), arg, second.as_str(), name)
        }
        _ => Err(LineFault::BadShape),
    }
}

/// Reads an argument without a name from an object.
fn read_nameless(alloc: Global, members: &Map<String, Value>) -> Result<Named, LineFault>
    ensures { IsShaped result
        (option_map (argument None) (arg_of_members (members_view members.now.entries))) }
{
    let arg = read_object(alloc, members)?;
    Ok(Named { name: None, arg })
}

/// Reads an argument and its name, each under its key.
fn read_named(
    alloc: Global,
    first: &str,
    arg: &Value,
    second: &str,
    name: &Value,
) -> Result<Named, LineFault>
    ensures { IsShaped result (named_pair first.now (view arg.now) second.now (view name.now)) }
{
    if first != "arg" || second != "name" {
        return Err(LineFault::BadShape);
    }
    let Value::String(name) = name else {
        return Err(LineFault::BadShape);
    };
    let arg = read_arg(alloc, arg)?;
    let name = Some(Txt::new(name.clone()?));
    Ok(Named { name, arg })
}

/// Reads an argument without a name.
pub fn read_arg(alloc: Global, value: &Value) -> Result<Arg, LineFault>
    ensures { IsShaped result (arg_of_data (view value.now)) }
{
    match value {
        Value::Null => Ok(Arg::Nil),
        Value::Bool(truth) => Ok(Arg::Bool(*truth)),
        Value::Number(number) => number_arg(number).ok_or(LineFault::BadShape),
        Value::String(text) => Ok(Arg::Text(Txt::new(text.clone()?))),
        Value::Array(_) => Err(LineFault::BadShape),
        Value::Object(members) => read_object(alloc, members),
    }
}

/// Reads an argument from an object whose only member is named after the argument's form.
fn read_object(alloc: Global, members: &Map<String, Value>) -> Result<Arg, LineFault>
    ensures { IsShaped result (arg_of_members (members_view members.now.entries)) }
{
    if members.len() != 1 {
        return Err(LineFault::BadShape);
    }
    match members.first_key_value() {
        Some((form, value)) => read_form(alloc, form.as_str(), value),
        None => Err(LineFault::BadShape),
    }
}

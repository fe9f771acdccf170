//! Arguments as JSON.
ghost use Rattle.std.specs.Prelude.{◌≡◌};
ghost use Rattle.serde_json.specs.Data.{null, boolean};
ghost use Rattle.dsql_script_spelling.specs.LineValues.{under, natural, integer};
ghost use Rattle.dsql_script_spelling.specs.LineArgs.{or_null, arg_data, argument_data, statement_data};
ghost use Rattle.dsql_script_spelling.specs.Spelling.{Spells};

use crate::parts::write_integer;
use crate::values::{
    begin_under, integer_under, natural_under, text_under, write_bytes, write_time, write_u64,
};
use dsql_value::{Arg, Named, Txt};
use json::Writer;
use std::alloc::{AllocError, Global};

/// Writes an object of one member, which is null.
fn null_under(json: &mut Writer, name: &str) -> Result<(), AllocError>
    ensures { Spells result json.old json.new (under name.now null) }
{
    begin_under(json, name)?;
    json.null()?;
    json.end_object()
}

/// Writes an object of one member, a truth value.
fn truth_under(json: &mut Writer, name: &str, b: bool) -> Result<(), AllocError>
    ensures { Spells result json.old json.new (under name.now (boolean b)) }
{
    begin_under(json, name)?;
    json.boolean(b)?;
    json.end_object()
}

/// Writes an object of one member, a signed number or null.
fn integer_or_null(json: &mut Writer, name: &str, n: Option<i64>) -> Result<(), AllocError>
    ensures { Spells result json.old json.new (under name.now (or_null integer n)) }
{
    match n {
        None => null_under(json, name),
        Some(n) => integer_under(json, name, n),
    }
}

/// Writes an argument, under the name of its form if JSON has no form of its own for it.
fn write_arg(alloc: Global, json: &mut Writer, arg: &Arg) -> Result<(), AllocError>
    ensures { Spells result json.old json.new (arg_data arg.now) }
{
    match arg {
        Arg::Nil => json.null(),
        Arg::I8(n) => integer_under(json, "i8", i64::from(*n)),
        Arg::I16(n) => integer_under(json, "i16", i64::from(*n)),
        Arg::I32(n) => integer_under(json, "i32", i64::from(*n)),
        Arg::I64(n) => write_integer(json, *n),
        Arg::U8(n) => natural_under(json, "u8", u64::from(*n)),
        Arg::U16(n) => natural_under(json, "u16", u64::from(*n)),
        Arg::U32(n) => natural_under(json, "u32", u64::from(*n)),
        Arg::U64(n) => write_u64(json, *n),
        Arg::Bool(b) => json.boolean(*b),
        Arg::Text(text) => json.string(text.as_str()),
        Arg::Bytes(bytes) => write_bytes(alloc, json, bytes),
        Arg::Time(n) => write_time(json, *n),
        Arg::NullText(None) => null_under(json, "null_text"),
        Arg::NullText(Some(text)) => text_under(json, "null_text", text.as_str()),
        Arg::NullI64(n) => integer_or_null(json, "null_i64", *n),
        Arg::NullI32(n) => integer_or_null(json, "null_i32", n.map(i64::from)),
        Arg::NullI16(n) => integer_or_null(json, "null_i16", n.map(i64::from)),
        Arg::NullU8(None) => null_under(json, "null_u8"),
        Arg::NullU8(Some(n)) => natural_under(json, "null_u8", u64::from(*n)),
        Arg::NullBool(None) => null_under(json, "null_bool"),
        Arg::NullBool(Some(b)) => truth_under(json, "null_bool", *b),
        Arg::NullTime(n) => integer_or_null(json, "null_time", *n),
    }
}

/// Writes an argument, inside an object if it has a name.
fn write_argument(alloc: Global, json: &mut Writer, named: &Named) -> Result<(), AllocError>
    ensures { Spells result json.old json.new (argument_data named.now) }
{
    let Some(name) = &named.name else {
        return write_arg(alloc, json, &named.arg);
    };
    begin_under(json, "arg")?;
    write_arg(alloc, json, &named.arg)?;
    json.key("name")?;
    json.string(name.as_str())?;
    json.end_object()
}

/// Writes the array of a call: its text, and then its arguments in order.
#[tactic(auto, using(crate::proofs::Spelled::spelled))]
pub fn write_statement(
    alloc: Global,
    json: &mut Writer,
    text: &Txt,
    args: &[Named],
) -> Result<(), AllocError>
    ensures { Spells result json.old json.new (statement_data text.now args.now) }
{
    json.begin_array()?;
    json.string(text.as_str())?;
    for named in args {
        write_argument(alloc, json, named)?;
    }
    json.end_array()
}

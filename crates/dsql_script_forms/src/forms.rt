//! The forms of arguments, each under its name.
ghost use Rattle.std.specs.Prelude.{◌≡◌};
ghost use Rattle.std.specs.Char.{is_ascii_uppercase};
ghost use Rattle.std.specs.List.{list_any};
ghost use Rattle.serde_json.specs.View.{view, number_view};
ghost use Rattle.dsql_script_forms.specs.Outcomes.{IsShaped};
ghost use Rattle.dsql_script_forms.specs.ScriptArgs.{number_arg, integer_form, null_integer_form, signed_form, number_form, bytes_of, text_form, truth_form, empty_form, form_arg};

use crate::fault::LineFault;
use dsql_value::{Arg, Bin, Txt};
use hex::FromHexError;
use serde_json::{Number, Value};
use std::alloc::Global;

/// The greatest number of arguments that a call may have, which is also that of its destinations.
pub const MAX_ARGS: usize = 32;

/// Returns the argument for a whole number that stands alone.
pub fn number_arg(number: &Number) -> Option<Arg>
    ensures { result ≡ number_arg (number_view number.now) }
{
    match number.as_i64() {
        Some(n) => Some(Arg::I64(n)),
        None => number.as_u64().map(Arg::U64),
    }
}

/// Reads the value under the name of a form.
pub fn read_form(alloc: Global, form: &str, value: &Value) -> Result<Arg, LineFault>
    ensures { IsShaped result (form_arg form.now (view value.now)) }
{
    match value {
        Value::Null => empty_form(form).ok_or(LineFault::BadShape),
        Value::Bool(truth) => truth_form(form, *truth).ok_or(LineFault::BadShape),
        Value::Number(number) => number_form(form, number).ok_or(LineFault::BadShape),
        Value::String(text) => text_form(alloc, form, text.as_str()),
        Value::Array(_) | Value::Object(_) => Err(LineFault::BadShape),
    }
}

/// Returns the Null form with this name that holds nothing.
fn empty_form(form: &str) -> Option<Arg>
    ensures { result ≡ empty_form form.now }
{
    match form {
        "null_text" => Some(Arg::NullText(None)),
        "null_i64" => Some(Arg::NullI64(None)),
        "null_i32" => Some(Arg::NullI32(None)),
        "null_i16" => Some(Arg::NullI16(None)),
        "null_u8" => Some(Arg::NullU8(None)),
        "null_bool" => Some(Arg::NullBool(None)),
        "null_time" => Some(Arg::NullTime(None)),
        _ => None,
    }
}

fn truth_form(form: &str, truth: bool) -> Option<Arg>
    ensures { result ≡ truth_form form.now truth }
{
    match form {
        "null_bool" => Some(Arg::NullBool(Some(truth))),
        _ => None,
    }
}

fn number_form(form: &str, number: &Number) -> Option<Arg>
    ensures { result ≡ number_form form.now (number_view number.now) }
{
    match form {
        "u64" => number.as_u64().map(Arg::U64),
        _ => signed_form(form, number.as_i64()?),
    }
}

fn signed_form(form: &str, n: i64) -> Option<Arg>
    ensures { result ≡ signed_form form.now n }
{
    integer_form(form, n).or(null_integer_form(form, n))
}

/// Returns the argument for a whole number, if the number lies in the range of the form.
fn integer_form(form: &str, n: i64) -> Option<Arg>
    ensures { result ≡ integer_form form.now n }
{
    match form {
        "i8" => i8::try_from(n).ok().map(Arg::I8),
        "i16" => i16::try_from(n).ok().map(Arg::I16),
        "i32" => i32::try_from(n).ok().map(Arg::I32),
        "u8" => u8::try_from(n).ok().map(Arg::U8),
        "u16" => u16::try_from(n).ok().map(Arg::U16),
        "u32" => u32::try_from(n).ok().map(Arg::U32),
        "time" => Some(Arg::Time(n)),
        _ => None,
    }
}

/// Returns a Null form that holds a whole number, if the number lies in the range of the form.
fn null_integer_form(form: &str, n: i64) -> Option<Arg>
    ensures { result ≡ null_integer_form form.now n }
{
    match form {
        "null_i64" => Some(Arg::NullI64(Some(n))),
        "null_i32" => Some(Arg::NullI32(Some(i32::try_from(n).ok()?))),
        "null_i16" => Some(Arg::NullI16(Some(i16::try_from(n).ok()?))),
        "null_u8" => Some(Arg::NullU8(Some(u8::try_from(n).ok()?))),
        "null_time" => Some(Arg::NullTime(Some(n))),
        _ => None,
    }
}

fn text_form(alloc: Global, form: &str, text: &str) -> Result<Arg, LineFault>
    ensures { IsShaped result (text_form form.now text.now) }
{
    match form {
        "bytes" => Ok(Arg::Bytes(read_bytes(alloc, text)?)),
        "null_text" => Ok(Arg::NullText(Some(Txt::new(String::from_str(alloc, text)?)))),
        _ => Err(LineFault::BadShape),
    }
}

/// Reads the bytes that pairs of hexadecimal digits spell, none of the digits in upper case.
fn read_bytes(alloc: Global, digits: &str) -> Result<Bin, LineFault>
    ensures { IsShaped result (bytes_of digits.now) }
{
    if has_upper_case(digits.as_bytes()) {
        return Err(LineFault::BadShape);
    }
    match hex::decode(alloc, digits.as_bytes()) {
        Ok(bytes) => Ok(Bin::new(bytes)),
        Err(FromHexError::OutOfMemory) => Err(LineFault::Memory),
        Err(_) => Err(LineFault::BadShape),
    }
}

fn has_upper_case(digits: &[u8]) -> bool
    ensures { result ≡ list_any is_ascii_uppercase digits.now }
{
    digits.iter().any(|digit| digit.is_ascii_uppercase())
}

ghost use Rattle.std.specs.Prelude.{◌≡◌, IfOk, OnOk, IfErr, negsuc, ◌≤ℤ◌};
ghost use Rattle.dsql_value.specs.Arguments.{arg_of, param_of, params_of, begins_with_letter, value_fault, name_fault, arg_fault, first_fault, count_fault, fault_of, IsFaultOrMemory};

use crate::arg::{Arg, ArgFault, Named};
use crate::items::Items;
use crate::text::{Txt, copy_of_optional};
use crate::value::{Param, Params, Value};
use std::alloc::Global;

/// Returns the value that a driver gets for an argument. It follows Go's `driver.DefaultParameterConverter` and
/// the method `Value` of `sql.NullString` and its like. The argument stays as it is.
pub fn driver_value(arg: &Arg) -> Result<Value, ArgFault>
    ensures accepted { OnOk result (value_fault arg.now ≡ None) }
    ensures value { IfOk result (λ value. value ≡ arg_of arg.now) }
    ensures refused { IfErr result (IsFaultOrMemory (value_fault arg.now)) }
{
    Ok(match arg {
        Arg::Nil => Value::Nil,
        Arg::I8(number) => Value::Int(i64::from(*number)),
        Arg::I16(number) => Value::Int(i64::from(*number)),
        Arg::I32(number) => Value::Int(i64::from(*number)),
        Arg::I64(number) => Value::Int(*number),
        Arg::U8(number) => Value::Int(i64::from(*number)),
        Arg::U16(number) => Value::Int(i64::from(*number)),
        Arg::U32(number) => Value::Int(i64::from(*number)),
        Arg::U64(number) => Value::Int(signed(*number)?),
        Arg::Bool(truth) => Value::Bool(*truth),
        Arg::Text(text) => Value::Text(text.clone()?),
        Arg::Bytes(bytes) => Value::Bytes(bytes.clone()?),
        Arg::Time(moment) => Value::Time(*moment),
        Arg::NullText(None) => Value::Nil,
        Arg::NullText(Some(text)) => Value::Text(text.clone()?),
        Arg::NullI64(number) => number.map_or(Value::Nil, Value::Int),
        Arg::NullI32(number) => number.map_or(Value::Nil, |n| Value::Int(i64::from(n))),
        Arg::NullI16(number) => number.map_or(Value::Nil, |n| Value::Int(i64::from(n))),
        Arg::NullU8(number) => number.map_or(Value::Nil, |n| Value::Int(i64::from(n))),
        Arg::NullBool(truth) => truth.map_or(Value::Nil, Value::Bool),
        Arg::NullTime(moment) => moment.map_or(Value::Nil, Value::Time),
    })
}

/// Returns the parameters of a driver call for the arguments `list`, in order. `want` is the number of inputs
/// that the statement has, or -1 if the driver doesn't know it, as Go's `driver.Stmt.NumInput`. `named_ok` says
/// whether the driver takes names, as Go's `driver.NamedValue` has them.
///
/// Each argument is checked in order, first its name and then its value. The number of arguments is checked
/// last. The arguments stay as they are.
pub fn check_args(
    alloc: Global,
    want: i32,
    named_ok: bool,
    list: &[Named],
) -> Result<Params, ArgFault>
    requires { negsuc 0 ≤ℤ want }
    ensures accepted { OnOk result (fault_of named_ok want list.now ≡ None) }
    ensures params { IfOk result (λ params. params ≡ params_of list.now) }
    ensures refused { IfErr result (IsFaultOrMemory (fault_of named_ok want list.now)) }
{
    let params = accepted_params(alloc, named_ok, list)?;
    check_count(want, list.len())?;
    Ok(params)
}

fn accepted_params(alloc: Global, named_ok: bool, list: &[Named]) -> Result<Params, ArgFault>
    ensures accepted { OnOk result (first_fault named_ok list.now ≡ None) }
    ensures params { IfOk result (λ params. params ≡ params_of list.now) }
    ensures refused { IfErr result (IsFaultOrMemory (first_fault named_ok list.now)) }
{
    let mut params = Vec::with_capacity(alloc, list.len())?;
    for named in list {
        params.push(accepted_param(named_ok, named)?)?;
    }
    Ok(Items::new(params))
}

fn accepted_param(named_ok: bool, named: &Named) -> Result<Param, ArgFault>
    ensures accepted { OnOk result (arg_fault named_ok named.now ≡ None) }
    ensures param { IfOk result (λ param. param ≡ param_of named.now) }
    ensures refused { IfErr result (IsFaultOrMemory (arg_fault named_ok named.now)) }
{
    check_name(named_ok, &named.name)?;
    let value = driver_value(&named.arg)?;
    let name = copy_of_optional(&named.name)?;
    Ok(Param { name, value })
}

fn check_name(named_ok: bool, name: &Option<Txt>) -> Result<(), ArgFault>
    ensures accepted { OnOk result (name_fault named_ok name.now ≡ None) }
    ensures refused { IfErr result (IsFaultOrMemory (name_fault named_ok name.now)) }
{
    let Some(name) = name else { return Ok(()) };
    if !is_name(name.as_str()) {
        return Err(ArgFault::BadName(name.clone()?));
    }
    if !named_ok {
        return Err(ArgFault::NamedRefused(name.clone()?));
    }
    Ok(())
}

fn is_name(name: &str) -> bool
    ensures { result ≡ begins_with_letter name.now }
{
    match name.as_bytes() {
        [first, ..] => first.is_ascii_alphabetic(),
        [] => false,
    }
}

fn check_count(want: i32, got: usize) -> Result<(), ArgFault>
    ensures accepted { OnOk result (count_fault want got ≡ None) }
    ensures refused { IfErr result (λ fault. count_fault want got ≡ Some fault) }
{
    // Accepts any number of arguments if `want` is -1.
    let Ok(want) = u32::try_from(want) else {
        return Ok(());
    };
    if want as usize == got {
        return Ok(());
    }
    let got = u32::try_from(got).unwrap_or(u32::MAX);
    Err(ArgFault::NumArgs { want, got })
}

fn signed(number: u64) -> Result<i64, ArgFault>
    ensures accepted { OnOk result (value_fault (Arg.U64 number) ≡ None) }
    ensures value { IfOk result (λ value. Value.Int value ≡ arg_of (Arg.U64 number)) }
    ensures refused { IfErr result (λ fault. value_fault (Arg.U64 number) ≡ Some fault) }
{
    match i64::try_from(number) {
        Ok(value) => Ok(value),
        Err(_) => Err(ArgFault::HighBit(number)),
    }
}

//! The parameters of statements. One without a name stands for the input in its place, and one with a name for the
//! input that has the name.
ghost use Rattle.std.specs.Prelude.{◌≡◌, IfOk, map};
ghost use Rattle.sqlite_driver.specs.Connection.{are_by_place, is_by_place};
ghost use Rattle.sqlite_driver.specs.Values.{sql_values};
ghost use Rattle.sqlite_value.specs.Value.{owned};

use crate::failure::Failure;
use crate::values::lent;
use dsql_value::Param;
use sqlite::types::ValueRef;
use sqlite::{Error, Statement};
use std::alloc::{AllocError, Global};

/// The symbols that SQLite takes before the name of an input.
const SYMBOLS: [&str; 3] = [":", "@", "$"];

/// Returns true if no parameter has a name.
pub(crate) fn are_by_place(params: &[Param]) -> bool
    ensures { result ≡ are_by_place params.now }
{
    params.iter().all(|param| is_by_place(param))
}

/// Returns true if the parameter has no name.
fn is_by_place(param: &Param) -> bool
    ensures { result ≡ is_by_place param.now }
{
    param.name.is_none()
}

/// Returns the values of parameters that stand in their places.
pub(crate) fn by_place<'a>(
    alloc: Global,
    params: &'a [Param],
) -> Result<Vec<ValueRef<'a>>, AllocError>
    ensures { IfOk result (λ values. map owned values.items ≡ sql_values params.now) }
{
    let mut values = Vec::with_capacity(alloc, params.len())?;
    for param in params {
        values.push(lent(&param.value))?;
    }
    Ok(values)
}

/// Returns the values of a statement's inputs, in the order of the inputs, from parameters of which some have names.
pub(crate) fn by_name<'a>(
    alloc: Global,
    statement: &Statement,
    params: &'a [Param],
) -> Result<Vec<ValueRef<'a>>, Failure> {
    let inputs = statement.parameter_count();
    if params.len() != inputs {
        return Err(Failure::Sqlite(Error::InvalidParameterCount(params.len(), inputs)));
    }
    let places = places_of(alloc, statement, params)?;
    let mut values = Vec::with_capacity(alloc, inputs)?;
    for input in 0..inputs {
        let Some(param) = param_at(places.as_slice(), input, params) else {
            return Err(Failure::TwoValues);
        };
        values.push(lent(&param.value))?;
    }
    Ok(values)
}

/// Returns the parameter with this place, if there is one.
fn param_at<'a>(places: &[usize], input: usize, params: &'a [Param]) -> Option<&'a Param> {
    let at = places.iter().position(|place| *place == input)?;
    params.get(at)
}

/// Returns the place of each parameter among a statement's inputs.
fn places_of(
    alloc: Global,
    statement: &Statement,
    params: &[Param],
) -> Result<Vec<usize>, Failure> {
    let mut places = Vec::with_capacity(alloc, params.len())?;
    for (at, param) in params.iter().enumerate() {
        let place = match &param.name {
            None => at,
            Some(name) => named_place(alloc, statement, name.as_str())?,
        };
        places.push(place)?;
    }
    Ok(places)
}

/// Returns the place of the input with this name.
fn named_place(alloc: Global, statement: &Statement, name: &str) -> Result<usize, Failure> {
    for symbol in SYMBOLS {
        let mut spelled = String::from_str(alloc, symbol)?;
        spelled.push_str(name)?;
        if let Some(place) = statement.parameter_index(spelled.as_str()) {
            return Ok(place);
        }
    }
    Err(Failure::NoSuchParameter)
}

//! Reads the lines of a script that plan a fault in place of a driver's answer.
ghost use Rattle.std.specs.Prelude.{map};
ghost use Rattle.std.specs.Option.{option_copied};
ghost use Rattle.dsql_script_forms.specs.Outcomes.{IsReading};
ghost use Rattle.dsql_script_calls.specs.ScriptWords.{ordinal_of};
ghost use Rattle.dsql_script_reader.specs.ScriptPlans.{planned_of, planned_with, planned_alone};
ghost use Rattle.dsql_script_reader.specs.ScriptLines.{plan_at, plan_line};

use crate::script::ScriptLine;
use dsql_history::Planned;
use dsql_script_calls as calls;
use dsql_script_forms::LineFault;
use std::alloc::Global;

/// Reads a line that plans a fault, by the words after `fault`.
pub fn read_plan(
    alloc: Global,
    words: &[&str],
    array: Option<&str>,
) -> Result<ScriptLine, LineFault>
    ensures { IsReading result
        (plan_line (map (λ w. w.now) words.now) (option_copied array.entry)) }
{
    if words.len() != 3 {
        return Err(LineFault::BadShape);
    }
    read_plan_at(alloc, words[0], words[1], words[2], array)
}

/// Reads such a line by the words for its connection, its call and its fault.
fn read_plan_at(
    alloc: Global,
    conn: &str,
    nth: &str,
    what: &str,
    array: Option<&str>,
) -> Result<ScriptLine, LineFault>
    ensures { IsReading result (plan_at (ordinal_of conn.now) (ordinal_of nth.now)
        (planned_of what.now (option_copied array.entry))) }
{
    let conn = calls::ordinal(conn).ok_or(LineFault::BadShape)?;
    let nth = calls::ordinal(nth).ok_or(LineFault::BadShape)?;
    let what = read_planned(alloc, what, array)?;
    Ok(ScriptLine::Fault { conn, nth, what })
}

/// Reads the fault that such a line plans. Only a failure has an array.
fn read_planned(alloc: Global, what: &str, array: Option<&str>) -> Result<Planned, LineFault>
    ensures { IsReading result (planned_of what.now (option_copied array.entry)) }
{
    match array {
        Some(array) => read_failure(alloc, what, array),
        None => read_answer(what),
    }
}

/// Reads a failure, whose text its array holds.
fn read_failure(alloc: Global, what: &str, array: &str) -> Result<Planned, LineFault>
    ensures { IsReading result (planned_with what.now array.now) }
{
    match what {
        "fail" => {
            let text = calls::read_text(alloc, array)?;
            Ok(Planned::Fail(text))
        }
        _ => Err(LineFault::BadShape),
    }
}

/// Reads a fault from its word alone.
fn read_answer(what: &str) -> Result<Planned, LineFault>
    ensures { IsReading result (planned_alone what.now) }
{
    match what {
        "bad" => Ok(Planned::Bad),
        "invalid" => Ok(Planned::Invalid),
        _ => Err(LineFault::BadShape),
    }
}

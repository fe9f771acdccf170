//! Reads the lines of a script that may stand anywhere: calls of clients, limits, moments and steps.
ghost use Rattle.std.specs.Prelude.{map};
ghost use Rattle.std.specs.Option.{option_copied};
ghost use Rattle.dsql_script_forms.specs.Outcomes.{IsShaped, IsReading};
ghost use Rattle.dsql_script_reader.specs.ScriptLines.{limit_alone, moment_alone, client_line, start_line, set_line, tick_line, step_by, step_line};

use crate::script::ScriptLine;
use dsql_history::{Control, Setting};
use dsql_script_calls as calls;
use dsql_script_forms::LineFault;
use std::alloc::Global;

/// Reads a client's line by its first word, the words after it and the array. The call is held if `held` is
/// true.
pub fn read_client(
    alloc: Global,
    held: bool,
    client: &str,
    words: &[&str],
    array: Option<&str>,
) -> Result<ScriptLine, LineFault>
    ensures { IsReading result (client_line held client.now
        (map (λ w. w.now) words.now) (option_copied array.entry)) }
{
    let client = calls::client(client).ok_or(LineFault::NoSuchWord)?;
    let op = calls::read_call(alloc, words, array)?;
    Ok(ScriptLine::Client { client, op, held })
}

/// Reads the line of a held call by the words after `start`.
pub fn read_start(
    alloc: Global,
    words: &[&str],
    array: Option<&str>,
) -> Result<ScriptLine, LineFault>
    ensures { IsReading result
        (start_line (map (λ w. w.now) words.now) (option_copied array.entry)) }
{
    match words {
        [client, rest @ ..] => read_client(alloc, true, client, rest, array),
        [] => Err(LineFault::NoSuchWord),
    }
}

/// Reads a line that sets a limit, by the words after the first one.
pub fn read_set(
    setting: Setting,
    words: &[&str],
    array: Option<&str>,
) -> Result<ScriptLine, LineFault>
    ensures { IsReading result
        (set_line setting (map (λ w. w.now) words.now) (option_copied array.entry)) }
{
    let limit = read_limit(words, array)?;
    Ok(ScriptLine::Control(Control::Set(setting, limit)))
}

/// Reads the number of a limit from the words after the first one.
fn read_limit(words: &[&str], array: Option<&str>) -> Result<i64, LineFault>
    ensures { IsShaped result
        (limit_alone (map (λ w. w.now) words.now) (option_copied array.entry)) }
{
    if array.is_some() {
        return Err(LineFault::BadShape);
    }
    match words {
        [number] => calls::limit(number).ok_or(LineFault::BadShape),
        _ => Err(LineFault::BadShape),
    }
}

/// Reads a line that sets the clock, by the words after `tick`.
pub fn read_tick(words: &[&str], array: Option<&str>) -> Result<ScriptLine, LineFault>
    ensures { IsReading result
        (tick_line (map (λ w. w.now) words.now) (option_copied array.entry)) }
{
    let now = read_moment(words, array)?;
    Ok(ScriptLine::Control(Control::Tick(now)))
}

/// Reads the moment of such a line.
fn read_moment(words: &[&str], array: Option<&str>) -> Result<u64, LineFault>
    ensures { IsShaped result
        (moment_alone (map (λ w. w.now) words.now) (option_copied array.entry)) }
{
    if array.is_some() {
        return Err(LineFault::BadShape);
    }
    match words {
        [now] => calls::moment(now).ok_or(LineFault::BadShape),
        _ => Err(LineFault::BadShape),
    }
}

/// Reads the line of a step by the words after `step`.
pub fn read_step(words: &[&str], array: Option<&str>) -> Result<ScriptLine, LineFault>
    ensures { IsReading result
        (step_line (map (λ w. w.now) words.now) (option_copied array.entry)) }
{
    if array.is_some() {
        return Err(LineFault::BadShape);
    }
    match words {
        [who] => read_step_by(who),
        _ => Err(LineFault::BadShape),
    }
}

/// Reads a step by the word for its actor.
fn read_step_by(who: &str) -> Result<ScriptLine, LineFault>
    ensures { IsReading result (step_by who.now) }
{
    if who == "house" {
        return Ok(ScriptLine::StepHouse);
    }
    let client = calls::client(who).ok_or(LineFault::BadShape)?;
    Ok(ScriptLine::Step(client))
}

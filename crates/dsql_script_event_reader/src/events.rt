//! Reads events by the arrays of their lines.
ghost use Rattle.std.specs.Prelude.{◌≡◌};
ghost use Rattle.serde_json.specs.View.{view};
ghost use Rattle.dsql_script_reader.specs.ScriptHead.{has_word, caps_among};
ghost use Rattle.dsql_script_forms.specs.Outcomes.{IsShaped};
ghost use Rattle.dsql_script_event_reader.specs.Events.{call_in, permit_of, setting_of};
ghost use Rattle.dsql_script_event_reader.specs.Events as form;

use crate::answers::read_answer;
use crate::asked::read_op;
use crate::driver_calls::read_call;
use crate::replies::read_reply;
use crate::values::texts_at;
use dsql_history::{Caps, DriverCall, Event, Permit, Setting, Txt};
use dsql_script_event_lines::{
    byte_at, integer_at, natural_at, number_at, owner_at, read_move, text_at,
};
use dsql_script_forms::LineFault;
use serde_json::Value;
use std::alloc::Global;

fn has_name(names: &[Txt], name: &str) -> bool
    ensures { result ≡ has_word names.now name.now }
{
    names.iter().any(|text| text.as_str() == name)
}

/// Returns the capabilities whose names are among these.
fn caps_among(names: &[Txt]) -> Caps
    ensures { result ≡ caps_among names.now }
{
    Caps {
        fast_exec: has_name(names, "fast_exec"),
        fast_query: has_name(names, "fast_query"),
        begin_options: has_name(names, "begin_options"),
        named: has_name(names, "named"),
        pinger: has_name(names, "pinger"),
        resetter: has_name(names, "resetter"),
        validator: has_name(names, "validator"),
    }
}

fn read_run(alloc: Global, line: &Value) -> Result<Event, LineFault>
    ensures { IsShaped result (form.run_of (view line.now)) }
{
    let version = byte_at(line, 1).ok_or(LineFault::BadShape)?;
    let names = texts_at(alloc, line, 2)?;
    let caps = caps_among(names.as_slice());
    Ok(Event::Run { version, caps })
}

fn read_entered(alloc: Global, line: &Value) -> Result<Event, LineFault>
    ensures { IsShaped result (form.entered_of (view line.now)) }
{
    let client = byte_at(line, 1).ok_or(LineFault::BadShape)?;
    let n = number_at(line, 2).ok_or(LineFault::BadShape)?;
    let op = read_op(alloc, line)?;
    Ok(Event::Entered { client, n, op })
}

/// Reads the driver call of a line.
fn call_in(alloc: Global, line: &Value) -> Result<DriverCall, LineFault>
    ensures { IsShaped result (call_in (view line.now)) }
{
    read_call(alloc, line.get(6).ok_or(LineFault::BadShape)?)
}

/// Reads a driver call and for whom it was made.
fn read_permit(alloc: Global, line: &Value) -> Result<Permit, LineFault>
    ensures { IsShaped result (permit_of (view line.now)) }
{
    let conn = number_at(line, 1).ok_or(LineFault::BadShape)?;
    let tenure = number_at(line, 2).ok_or(LineFault::BadShape)?;
    let owner = owner_at(line, 3).ok_or(LineFault::BadShape)?;
    let call_no = number_at(line, 4).ok_or(LineFault::BadShape)?;
    let tx = number_at(line, 5).ok_or(LineFault::BadShape)?;
    let call = call_in(alloc, line)?;
    Ok(Permit {
        conn,
        tenure,
        owner,
        call_no,
        tx,
        call,
    })
}

/// Reads a driver call and its answer.
fn read_heard(alloc: Global, line: &Value) -> Result<Event, LineFault>
    ensures { IsShaped result (form.heard_of (view line.now)) }
{
    let permit = read_permit(alloc, line)?;
    let answer = read_answer(alloc, line.get(7).ok_or(LineFault::BadShape)?)?;
    Ok(Event::Heard(permit.answered(answer)))
}

fn setting_of(word: &str) -> Option<Setting>
    ensures { result ≡ setting_of word.now }
{
    match word {
        "maxopen" => Some(Setting::MaxOpen),
        "maxidle" => Some(Setting::MaxIdle),
        "maxlife" => Some(Setting::MaxLife),
        "maxidletime" => Some(Setting::MaxIdleTime),
        _ => None,
    }
}

fn read_limit(line: &Value) -> Option<Event>
    ensures { result ≡ form.limit_of (view line.now) }
{
    let setting = setting_of(text_at(line, 1)?)?;
    let limit = integer_at(line, 2)?;
    Some(Event::SetLimit(setting, limit))
}

fn read_replied(alloc: Global, line: &Value) -> Result<Event, LineFault>
    ensures { IsShaped result (form.replied_of (view line.now)) }
{
    let n = number_at(line, 1).ok_or(LineFault::BadShape)?;
    let reply = read_reply(alloc, line.get(2).ok_or(LineFault::BadShape)?)?;
    Ok(Event::Replied { n, reply })
}

/// Reads an event by the word of its line.
fn read_by(alloc: Global, word: &str, line: &Value) -> Result<Event, LineFault>
    ensures { IsShaped result (form.event_by word.now (view line.now)) }
{
    match word {
        "run" => read_run(alloc, line),
        "enter" => read_entered(alloc, line),
        "heard" => read_heard(alloc, line),
        "wait" => number_at(line, 1)
            .map(Event::Waits)
            .ok_or(LineFault::BadShape),
        "tick" => natural_at(line, 1)
            .map(Event::Ticked)
            .ok_or(LineFault::BadShape),
        "set" => read_limit(line).ok_or(LineFault::BadShape),
        "reply" => read_replied(alloc, line),
        "ended" => Ok(Event::Ended),
        _ => read_move(word, line)
            .map(Event::Pool)
            .ok_or(LineFault::BadShape),
    }
}

/// Reads the event that an array records, by its word and at the places that this word asks for. It ignores
/// what else stands there.
pub fn read_event(alloc: Global, line: &Value) -> Result<Event, LineFault>
    ensures { IsShaped result (form.event_of (view line.now)) }
{
    let word = text_at(line, 0).ok_or(LineFault::BadShape)?;
    read_by(alloc, word, line)
}

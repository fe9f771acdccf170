//! The calls of clients, by their words and the array after them.
ghost use Rattle.std.specs.Prelude.{◌≡◌, map, slice_get, option_map};
ghost use Rattle.serde_json.specs.View.{view};
ghost use Rattle.dsql_script_forms.specs.Outcomes.{IsShaped};
ghost use Rattle.dsql_script_event_reader.specs.Asked.{statement_in, dests_in};
ghost use Rattle.dsql_script_event_reader.specs.Asked as form;

use dsql_history::{Args, Dests, Op, Target, Txt};
use dsql_script_calls::{read_call, read_statement, split_words};
use dsql_script_event_lines::text_at;
use dsql_script_forms::{LineFault, read_dests};
use serde_json::Value;
use std::alloc::Global;

fn word_at<'a>(words: &[&'a str], place: usize) -> Option<&'a str>
    ensures { option_map (λ word. word.now) result
        ≡ slice_get (map (λ w. w.now) words.now) place }
{
    words.get(place).copied()
}

/// Returns a copy of the word at this place.
fn copy_word(alloc: Global, words: &[&str], place: usize) -> Result<Txt, LineFault>
    ensures { IsShaped result (slice_get (map (λ w. w.now) words.now) place) }
{
    let word = word_at(words, place).ok_or(LineFault::BadShape)?;
    Ok(Txt::new(String::from_str(alloc, word)?))
}

/// Returns the target that the word at this place names.
fn target_in(alloc: Global, words: &[&str], place: usize) -> Result<Target, LineFault>
    ensures { IsShaped result (form.target_in place (map (λ w. w.now) words.now)) }
{
    let word = copy_word(alloc, words, place)?;
    if word.as_str() == "db" {
        return Ok(Target::Db);
    }
    Ok(Target::Label(word))
}

/// Reads the word at this place as destinations.
fn dests_in(alloc: Global, words: &[&str], place: usize) -> Result<Dests, LineFault>
    ensures { IsShaped result (dests_in place (map (λ w. w.now) words.now)) }
{
    let word = word_at(words, place).ok_or(LineFault::BadShape)?;
    read_dests(alloc, word)
}

/// Reads the text and the arguments of a call.
fn statement_in(alloc: Global, line: &Value) -> Result<(Txt, Args), LineFault>
    ensures { IsShaped result (statement_in (view line.now)) }
{
    read_statement(alloc, line.get(4).ok_or(LineFault::BadShape)?)
}

fn read_exec(alloc: Global, words: &[&str], line: &Value) -> Result<Op, LineFault>
    ensures { IsShaped result
        (form.exec_of (form.target_in 1 (map (λ w. w.now) words.now)) (view line.now)) }
{
    let target = target_in(alloc, words, 1)?;
    let (text, args) = statement_in(alloc, line)?;
    Ok(Op::Exec { target, text, args })
}

fn read_query(alloc: Global, words: &[&str], line: &Value) -> Result<Op, LineFault>
    ensures { IsShaped result (form.query_of (slice_get (map (λ w. w.now) words.now) 1)
        (form.target_in 2 (map (λ w. w.now) words.now)) (view line.now)) }
{
    let label = copy_word(alloc, words, 1)?;
    let target = target_in(alloc, words, 2)?;
    let (text, args) = statement_in(alloc, line)?;
    Ok(Op::Query {
        label,
        target,
        text,
        args,
    })
}

fn read_one(alloc: Global, words: &[&str], line: &Value) -> Result<Op, LineFault>
    ensures { IsShaped result (form.one_of (form.target_in 1 (map (λ w. w.now) words.now))
        (dests_in 2 (map (λ w. w.now) words.now)) (view line.now)) }
{
    let target = target_in(alloc, words, 1)?;
    let dests = dests_in(alloc, words, 2)?;
    let (text, args) = statement_in(alloc, line)?;
    Ok(Op::One {
        target,
        dests,
        text,
        args,
    })
}

fn read_scan(alloc: Global, words: &[&str]) -> Result<Op, LineFault>
    ensures { IsShaped result (form.scan_of (slice_get (map (λ w. w.now) words.now) 1)
        (dests_in 2 (map (λ w. w.now) words.now))) }
{
    let rows = copy_word(alloc, words, 1)?;
    let dests = dests_in(alloc, words, 2)?;
    Ok(Op::Scan { rows, dests })
}

/// Reads a call that has no array and no destinations. Its words are read as those of a script line are.
fn read_worded(alloc: Global, words: &[&str]) -> Result<Op, LineFault>
    ensures { IsShaped result (form.worded_of (map (λ w. w.now) words.now)) }
{
    match read_call(alloc, words, None) {
        Ok(op) => Ok(op),
        Err(LineFault::Memory) => Err(LineFault::Memory),
        Err(_) => Err(LineFault::BadShape),
    }
}

/// Reads a call by its first word. Unlike in a script, the numbers of arguments and destinations aren't
/// checked.
fn read_by(alloc: Global, verb: &str, words: &[&str], line: &Value) -> Result<Op, LineFault>
    ensures { IsShaped result
        (form.op_by verb.now (map (λ w. w.now) words.now) (view line.now)) }
{
    match verb {
        "exec" => read_exec(alloc, words, line),
        "query" => read_query(alloc, words, line),
        "one" => read_one(alloc, words, line),
        "scan" => read_scan(alloc, words),
        _ => read_worded(alloc, words),
    }
}

/// Reads a call by its words.
fn read_words(alloc: Global, words: &[&str], line: &Value) -> Result<Op, LineFault>
    ensures { IsShaped result (form.op_of (map (λ w. w.now) words.now) (view line.now)) }
{
    let verb = word_at(words, 0).ok_or(LineFault::BadShape)?;
    read_by(alloc, verb, words, line)
}

/// Reads the call of an `enter` line.
pub fn read_op(alloc: Global, line: &Value) -> Result<Op, LineFault>
    ensures { IsShaped result (form.op_in (view line.now)) }
{
    let text = text_at(line, 3).ok_or(LineFault::BadShape)?;
    let words = split_words(alloc, text)?;
    read_words(alloc, &words, line)
}

//! Reads the calls of clients by the words after the client.
ghost use Rattle.std.specs.Prelude.{map, Some};
ghost use Rattle.std.specs.Option.{option_copied};
ghost use Rattle.dsql_script_spelling.specs.Dests.{dests_of};
ghost use Rattle.dsql_script_forms.specs.Outcomes.{IsReading};
ghost use Rattle.dsql_script_calls.specs.ScriptWords.{label_of};
ghost use Rattle.dsql_script_calls.specs.ScriptCalls.{call_of, call_by, lone_call, ping_of, ping_on, exec_of, query_of, query_as, one_of, one_into, statement_of, call_of_parts, target_of};

use crate::{args, array, labels, targets, transactions};
use dsql_history::{Args, Dests, Items, Op, Target, Txt};
use dsql_script_forms::{LineFault, MAX_ARGS, What, read_dests};
use std::alloc::Global;

/// What a call does with its text and its arguments.
#[derive(Drop)]
enum Verb {
    /// It executes the text.
    Exec,
    /// It queries the text, and its rows get this label.
    Query(Txt),
    /// It queries the text, and reads one row into these destinations.
    One(Dests),
}

impl Verb {
    ghost use Rattle.std.specs.Prelude.{◌≡◌};
    ghost use Rattle.dsql_script_calls.specs.ScriptCalls.{dest_count, op_of};

    /// Returns the number of destinations.
    fn dest_count(&self) -> usize
        ensures { result ≡ dest_count self.now }
    {
        match self {
            Verb::Exec | Verb::Query(_) => 0,
            Verb::One(dests) => dests.as_slice().len(),
        }
    }

    fn op(self, target: Target, text: Txt, args: Args) -> Op
        ensures { result ≡ op_of self target text args }
    {
        match self {
            Verb::Exec => Op::Exec { target, text, args },
            Verb::Query(label) => Op::Query {
                label,
                target,
                text,
                args,
            },
            Verb::One(dests) => Op::One {
                target,
                dests,
                text,
                args,
            },
        }
    }
}

/// Reads a call by its words and its array.
pub fn read_call(alloc: Global, words: &[&str], array: Option<&str>) -> Result<Op, LineFault>
    ensures { IsReading result
        (call_of (map (λ w. w.now) words.now) (option_copied array.entry)) }
{
    match words {
        [verb, rest @ ..] => read_call_by(alloc, verb, rest, array),
        [] => Err(LineFault::NoSuchWord),
    }
}

/// Reads a call by its first word and the words after it.
fn read_call_by(
    alloc: Global,
    verb: &str,
    words: &[&str],
    array: Option<&str>,
) -> Result<Op, LineFault>
    ensures { IsReading result
        (call_by verb.now (map (λ w. w.now) words.now) (option_copied array.entry)) }
{
    match verb {
        "exec" => read_exec(alloc, words, array),
        "query" => read_query(alloc, words, array),
        "one" => read_one(alloc, words, array),
        "ping" => read_ping(words, array),
        "dbclose" => read_lone(Op::DbClose, words, array),
        "stats" => read_lone(Op::Stats, words, array),
        _ => transactions::read_call(alloc, verb, words, array),
    }
}

/// Reads a call whose word stands alone. Fails if other words or an array follow it.
fn read_lone(op: Op, words: &[&str], array: Option<&str>) -> Result<Op, LineFault>
    ensures { IsReading result
        (lone_call op (map (λ w. w.now) words.now) (option_copied array.entry)) }
{
    if array.is_some() || !words.is_empty() {
        return Err(LineFault::BadShape);
    }
    Ok(op)
}

/// Reads a ping by the words after it.
fn read_ping(words: &[&str], array: Option<&str>) -> Result<Op, LineFault>
    ensures { IsReading result
        (ping_of (map (λ w. w.now) words.now) (option_copied array.entry)) }
{
    match words {
        [target, tokens @ ..] => read_ping_on(target, tokens, array),
        [] => Err(LineFault::BadShape),
    }
}

/// Reads a ping by its target and the words after that.
fn read_ping_on(target: &str, tokens: &[&str], array: Option<&str>) -> Result<Op, LineFault>
    ensures { IsReading result (ping_on target.now
        (map (λ w. w.now) tokens.now) (option_copied array.entry)) }
{
    if array.is_some() || !targets::has_target(target, tokens) {
        return Err(LineFault::BadShape);
    }
    if !targets::names_database(target, tokens) {
        return Err(LineFault::UnknownLabel);
    }
    Ok(Op::Ping)
}

/// Reads an exec by the words after it.
fn read_exec(alloc: Global, words: &[&str], array: Option<&str>) -> Result<Op, LineFault>
    ensures { IsReading result
        (exec_of (map (λ w. w.now) words.now) (option_copied array.entry)) }
{
    match words {
        [target, tokens @ ..] => read_statement(alloc, Verb::Exec, target, tokens, array),
        [] => Err(LineFault::BadShape),
    }
}

/// Reads a query by the words after it.
fn read_query(alloc: Global, words: &[&str], array: Option<&str>) -> Result<Op, LineFault>
    ensures { IsReading result
        (query_of (map (λ w. w.now) words.now) (option_copied array.entry)) }
{
    match words {
        [label, target, tokens @ ..] => read_query_as(alloc, label, target, tokens, array),
        _ => Err(LineFault::BadShape),
    }
}

/// Reads a query by the word for its label and the words after it.
fn read_query_as(
    alloc: Global,
    label: &str,
    target: &str,
    tokens: &[&str],
    array: Option<&str>,
) -> Result<Op, LineFault>
    ensures { IsReading result (query_as (label_of label.now) target.now
        (map (λ w. w.now) tokens.now) (option_copied array.entry)) }
{
    let verb = Verb::Query(labels::read_label(alloc, label)?);
    read_statement(alloc, verb, target, tokens, array)
}

/// Reads a call that reads one row, by the words after `one`.
fn read_one(alloc: Global, words: &[&str], array: Option<&str>) -> Result<Op, LineFault>
    ensures { IsReading result
        (one_of (map (λ w. w.now) words.now) (option_copied array.entry)) }
{
    match words {
        [target, dests, tokens @ ..] => read_into(alloc, dests, target, tokens, array),
        _ => Err(LineFault::BadShape),
    }
}

/// Reads a call that reads one row into the destinations in a word.
fn read_into(
    alloc: Global,
    dests: &str,
    target: &str,
    tokens: &[&str],
    array: Option<&str>,
) -> Result<Op, LineFault>
    ensures { IsReading result (one_into (dests_of dests.now) target.now
        (map (λ w. w.now) tokens.now) (option_copied array.entry)) }
{
    let verb = Verb::One(read_dests(alloc, dests)?);
    read_statement(alloc, verb, target, tokens, array)
}

/// Reads a call by its verb, its target, the words after that, and its array.
fn read_statement(
    alloc: Global,
    verb: Verb,
    target: &str,
    tokens: &[&str],
    array: Option<&str>,
) -> Result<Op, LineFault>
    ensures { IsReading result (statement_of verb target.now
        (map (λ w. w.now) tokens.now) (option_copied array.entry)) }
{
    if !targets::has_target(target, tokens) {
        return Err(LineFault::BadShape);
    }
    let array = array.ok_or(LineFault::BadShape)?;
    if let Some(text) = array::lone_text(array) {
        let text = Txt::new(String::from_str(alloc, text)?);
        return call_with(alloc, verb, target, tokens, text, Items::none(alloc));
    }
    let value = array::read_array(alloc, array)?;
    let (text, args) = args::read_statement(alloc, &value)?;
    call_with(alloc, verb, target, tokens, text, args)
}

/// Returns the call by its verb, its target, the words after that, and its text with its arguments.
fn call_with(
    alloc: Global,
    verb: Verb,
    target: &str,
    tokens: &[&str],
    text: Txt,
    args: Args,
) -> Result<Op, LineFault>
    ensures { IsReading result (call_of_parts verb (target_of target.now)
        (map (λ w. w.now) tokens.now) (Some (text, args))) }
{
    if args.as_slice().len() > MAX_ARGS || verb.dest_count() > MAX_ARGS {
        return Err(LineFault::TooMany(What::Args));
    }
    if !tokens.is_empty() {
        return Err(LineFault::UnknownLabel);
    }
    let target = targets::target_of(alloc, target)?;
    Ok(verb.op(target, text, args))
}

//! Calls that begin or end a transaction.
ghost use Rattle.std.specs.Prelude.{◌≡◌, map};
ghost use Rattle.std.specs.Option.{option_copied};
ghost use Rattle.dsql_script_forms.specs.Outcomes.{IsReading};
ghost use Rattle.dsql_script_calls.specs.ScriptWords.{label_of};
ghost use Rattle.dsql_script_calls.specs.ScriptBegins.{level_of, level_first, read_only_first, begin_as, begin_of};
ghost use Rattle.dsql_script_calls.specs.ScriptCalls.{tx_call_by};

use crate::{labels, rows, targets};
use dsql_history::{Level, Op};
use dsql_script_forms::LineFault;
use std::alloc::Global;

/// Reads a call that begins or ends a transaction, or a call on rows, by its first word and the words after it.
pub fn read_call(
    alloc: Global,
    verb: &str,
    words: &[&str],
    array: Option<&str>,
) -> Result<Op, LineFault>
    ensures { IsReading result
        (tx_call_by verb.now (map (λ w. w.now) words.now) (option_copied array.entry)) }
{
    match verb {
        "begin" => read_begin(alloc, words, array),
        "commit" => {
            let tx = labels::read_label_alone(alloc, words, array)?;
            Ok(Op::Commit { tx })
        }
        "rollback" => {
            let tx = labels::read_label_alone(alloc, words, array)?;
            Ok(Op::Rollback { tx })
        }
        _ => rows::read_call(alloc, verb, words, array),
    }
}

/// Reads a begin by the words after it.
fn read_begin(alloc: Global, words: &[&str], array: Option<&str>) -> Result<Op, LineFault>
    ensures { IsReading result
        (begin_of (map (λ w. w.now) words.now) (option_copied array.entry)) }
{
    match words {
        [label, target, options @ ..] => read_begin_as(alloc, label, target, options, array),
        _ => Err(LineFault::BadShape),
    }
}

/// Reads a begin by the word for its label, its target and the words after that.
fn read_begin_as(
    alloc: Global,
    label: &str,
    target: &str,
    options: &[&str],
    array: Option<&str>,
) -> Result<Op, LineFault>
    ensures { IsReading result (begin_as (label_of label.now) target.now
        (map (λ w. w.now) options.now) (option_copied array.entry)) }
{
    if array.is_some() {
        return Err(LineFault::BadShape);
    }
    let label = labels::read_label(alloc, label)?;
    let (level, options) = level_first(options);
    let (read_only, tokens) = read_only_first(options);
    if !targets::has_target(target, tokens) {
        return Err(LineFault::BadShape);
    }
    if !targets::names_database(target, tokens) {
        return Err(LineFault::UnknownLabel);
    }
    Ok(Op::Begin {
        label,
        level,
        read_only,
    })
}

/// Returns the level that the first of these words asks for, or the default one, and the remaining words.
fn level_first<'a>(words: &'a [&'a str]) -> (Level, &'a [&'a str])
    ensures level { result.0 ≡ (level_first (map (λ w. w.now) words.now)).0 }
    ensures rest { map (λ w. w.now) result.1.now ≡ (level_first (map (λ w. w.now) words.now)).1 }
{
    match words {
        [first, rest @ ..] => match level_of(first) {
            Some(level) => (level, rest),
            None => (Level::Default, words),
        },
        [] => (Level::Default, words),
    }
}

/// Returns whether the first of these words asks for a read-only transaction, and the remaining words.
fn read_only_first<'a>(words: &'a [&'a str]) -> (bool, &'a [&'a str])
    ensures read_only { result.0 ≡ (read_only_first (map (λ w. w.now) words.now)).0 }
    ensures rest { map (λ w. w.now) result.1.now ≡ (read_only_first (map (λ w. w.now) words.now)).1 }
{
    match words {
        [first, rest @ ..] => {
            if *first == "ro" {
                (true, rest)
            } else {
                (false, words)
            }
        }
        [] => (false, words),
    }
}

/// Returns the level that a word asks for.
fn level_of(word: &str) -> Option<Level>
    ensures { result ≡ level_of word.now }
{
    match word {
        "level=read_uncommitted" => Some(Level::ReadUncommitted),
        "level=read_committed" => Some(Level::ReadCommitted),
        "level=write_committed" => Some(Level::WriteCommitted),
        "level=repeatable_read" => Some(Level::RepeatableRead),
        "level=snapshot" => Some(Level::Snapshot),
        "level=serializable" => Some(Level::Serializable),
        "level=linearizable" => Some(Level::Linearizable),
        _ => None,
    }
}

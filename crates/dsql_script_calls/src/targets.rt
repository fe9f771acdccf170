//! The target of a call.
ghost use Rattle.std.specs.Prelude.{◌≡◌, map, IfOk};
ghost use Rattle.dsql_script_calls.specs.ScriptWords.{is_database, is_target, is_token};
ghost use Rattle.dsql_script_calls.specs.CallTargets.{has_target, names_database};
ghost use Rattle.dsql_script_calls.specs.ScriptCalls.{target_of};

use crate::words::is_name;
use dsql_history::{Target, Txt};
use std::alloc::{AllocError, Global};

/// Returns whether these words are a call's target and a token or none.
pub fn has_target(target: &str, tokens: &[&str]) -> bool
    ensures { result ≡ has_target target.now (map (λ w. w.now) tokens.now) }
{
    match tokens {
        [] => is_target(target),
        [token] => is_target(target) && is_token(token),
        _ => false,
    }
}

/// Returns whether these words name the database, without a token.
pub fn names_database(target: &str, tokens: &[&str]) -> bool
    ensures { result ≡ names_database target.now (map (λ w. w.now) tokens.now) }
{
    tokens.is_empty() && is_database(target)
}

/// Returns the target that a word names: the database, or the transaction with this label.
pub fn target_of(alloc: Global, word: &str) -> Result<Target, AllocError>
    ensures { IfOk result (λ target. target ≡ target_of word.now) }
{
    if is_database(word) {
        return Ok(Target::Db);
    }
    Ok(Target::Label(Txt::new(String::from_str(alloc, word)?)))
}

fn is_database(word: &str) -> bool
    ensures { result ≡ is_database word.now }
{
    word == "db"
}

fn is_target(word: &str) -> bool
    ensures { result ≡ is_target word.now }
{
    is_database(word) || is_name(word)
}

fn is_token(word: &str) -> bool
    ensures { result ≡ is_token word.now }
{
    match word.strip_prefix('@') {
        Some(name) => is_name(name),
        None => false,
    }
}

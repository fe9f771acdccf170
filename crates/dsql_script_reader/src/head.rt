//! Reads the lines of a script that stand before all others.
ghost use Rattle.std.specs.Prelude.{◌≡◌, map};
ghost use Rattle.std.specs.Cmp.Lexicographic.{pointwise};
ghost use Rattle.std.specs.Option.{option_copied};
ghost use Rattle.std.specs.Str.{bytes_eq};
ghost use Rattle.dsql_script_forms.specs.Outcomes.{IsShaped, IsReading};
ghost use Rattle.dsql_script_reader.specs.ScriptHead.{is_version, has_word, caps_among, caps_of};
ghost use Rattle.dsql_script_reader.specs.ScriptLines.{version_line, caps_line};

use crate::script::{Head, ScriptLine};
use dsql_history::Caps;
use dsql_script_forms::LineFault;
use dsql_script_spelling::caps_names;
use std::alloc::Global;

/// The script version that this reader reads.
const VERSION: u8 = 1;

/// Reads a version line by the words after the first one.
pub fn read_version(
    head: Head,
    words: &[&str],
    array: Option<&str>,
) -> Result<ScriptLine, LineFault>
    ensures { IsReading result
        (version_line head (map (λ w. w.now) words.now) (option_copied array.entry)) }
{
    if head != Head::First {
        return Err(LineFault::NoSuchWord);
    }
    if array.is_some() || !is_version(words) {
        return Err(LineFault::BadShape);
    }
    Ok(ScriptLine::Version(VERSION))
}

fn is_version(words: &[&str]) -> bool
    ensures { result ≡ is_version (map (λ w. w.now) words.now) }
{
    match words {
        [word] => *word == "1",
        _ => false,
    }
}

/// Reads a caps line by the words after the first one.
pub fn read_caps(
    alloc: Global,
    head: Head,
    words: &[&str],
    array: Option<&str>,
) -> Result<ScriptLine, LineFault>
    ensures { IsReading result
        (caps_line head (map (λ w. w.now) words.now) (option_copied array.entry)) }
{
    if head == Head::Begun {
        return Err(LineFault::NoSuchWord);
    }
    if array.is_some() {
        return Err(LineFault::BadShape);
    }
    let caps = caps_of(alloc, words)?;
    Ok(ScriptLine::UseCaps(caps))
}

/// Returns the capabilities that these words name. Fails if the words aren't their names, each once and in
/// order.
fn caps_of(alloc: Global, words: &[&str]) -> Result<Caps, LineFault>
    ensures { IsShaped result (caps_of (map (λ w. w.now) words.now)) }
{
    let caps = caps_among(words);
    let names = caps_names(alloc, &caps)?;
    if !are_equal(&names, words) {
        return Err(LineFault::BadShape);
    }
    Ok(caps)
}

fn are_equal(names: &[&str], words: &[&str]) -> bool
    ensures { result ≡ pointwise bytes_eq (map (λ n. n.now) names.now) (map (λ w. w.now) words.now) }
{
    names == words
}

/// Returns the capabilities whose names are among these words.
fn caps_among(words: &[&str]) -> Caps
    ensures { result ≡ caps_among (map (λ w. w.now) words.now) }
{
    Caps {
        fast_exec: has_word(words, "fast_exec"),
        fast_query: has_word(words, "fast_query"),
        begin_options: has_word(words, "begin_options"),
        named: has_word(words, "named"),
        pinger: has_word(words, "pinger"),
        resetter: has_word(words, "resetter"),
        validator: has_word(words, "validator"),
    }
}

fn has_word(words: &[&str], name: &str) -> bool
    ensures { result ≡ has_word (map (λ w. w.now) words.now) name.now }
{
    words.contains(&name)
}

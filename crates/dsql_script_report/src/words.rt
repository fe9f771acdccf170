//! The words of the lines that ask for calls.
ghost use Rattle.std.specs.Prelude.{◌≡◌, ◌++◌, codes, string_bytes, IfOk, OnOk};
ghost use Rattle.dsql_script_spelling.specs.Dests.{dests_word};
ghost use Rattle.dsql_script_report.specs.LineOps.{begin_words, level_words, read_only_words, target_word};

use crate::levels::level_word;
use dsql_history::{Dest, Level, Target, Txt};
use dsql_script_spelling::dests_word;
use std::alloc::{AllocError, Global};

/// The room for the words of a call: the longest verb with its space, two labels of 32 bytes and the space
/// between them.
const WORDS_ROOM: usize = 71;

/// Returns a verb with its space, followed by a label.
pub(crate) fn labelled(alloc: Global, verb: &str, label: &str) -> Result<String, AllocError>
    ensures { IfOk result (λ words. string_bytes words ≡ verb.now ++ label.now) }
{
    let mut words = String::with_capacity(alloc, WORDS_ROOM)?;
    words.push_str(verb)?;
    words.push_str(label)?;
    Ok(words)
}

/// Returns the word for a call's target.
pub(crate) fn target_word(target: &Target) -> &str
    ensures { result.now ≡ target_word target.now }
{
    match target {
        Target::Db => "db",
        Target::Label(tx) => tx.as_str(),
    }
}

/// Returns the words of a query whose rows get this label.
pub(crate) fn query_words(alloc: Global, label: &str, target: &Target) -> Result<String, AllocError>
    ensures { IfOk result (λ words. string_bytes words
        ≡ codes "query " ++ (label.now ++ (codes " " ++ target_word target.now))) }
{
    let mut words = labelled(alloc, "query ", label)?;
    words.push_str(" ")?;
    words.push_str(target_word(target))?;
    Ok(words)
}

/// Returns the words of a query that reads one row into these destinations.
pub(crate) fn one_words(
    alloc: Global,
    target: &Target,
    dests: &[Dest],
) -> Result<String, AllocError>
    ensures { IfOk result (λ words. string_bytes words
        ≡ codes "one " ++ (target_word target.now ++ (codes " " ++ dests_word dests.now))) }
{
    let target = target_word(target);
    let dests = dests_word(alloc, dests)?;
    format!(in alloc; "one {target} {dests}")
}

/// Returns the words of a scan of rows into these destinations.
pub(crate) fn scan_words(alloc: Global, rows: &str, dests: &[Dest]) -> Result<String, AllocError>
    ensures { IfOk result (λ words. string_bytes words
        ≡ codes "scan " ++ (rows.now ++ (codes " " ++ dests_word dests.now))) }
{
    let dests = dests_word(alloc, dests)?;
    format!(in alloc; "scan {rows} {dests}")
}

/// Appends the word for an isolation level, unless it is the default one.
fn push_level(words: &mut String, level: Level) -> Result<(), AllocError>
    ensures { OnOk result (string_bytes words.new ≡ string_bytes words.old ++ level_words level) }
{
    if let Level::Default = level {
        return Ok(());
    }
    words.push_str(" level=")?;
    words.push_str(level_word(level))
}

/// Returns the words of a begin whose transaction gets this label.
pub(crate) fn begin_words(
    alloc: Global,
    label: &str,
    level: Level,
    read_only: bool,
) -> Result<String, AllocError>
    ensures { IfOk result (λ words. string_bytes words ≡ begin_words label.now level read_only) }
{
    let mut words = labelled(alloc, "begin ", label)?;
    words.push_str(" db")?;
    push_level(&mut words, level)?;
    if read_only {
        words.push_str(" ro")?;
    }
    Ok(words)
}

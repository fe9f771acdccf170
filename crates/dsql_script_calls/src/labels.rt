//! The label that a call makes, or that it is made on.
ghost use Rattle.std.specs.Prelude.{map};
ghost use Rattle.std.specs.Option.{option_copied};
ghost use Rattle.dsql_script_forms.specs.Outcomes.{IsShaped};
ghost use Rattle.dsql_script_calls.specs.ScriptWords.{label_of};
ghost use Rattle.dsql_script_calls.specs.CallTargets.{rows_of as label_alone};

use crate::words::is_name;
use dsql_history::Txt;
use dsql_script_forms::LineFault;
use std::alloc::Global;

/// Reads a word as a label.
pub fn read_label(alloc: Global, word: &str) -> Result<Txt, LineFault>
    ensures { IsShaped result (label_of word.now) }
{
    if !is_name(word) {
        return Err(LineFault::BadShape);
    }
    Ok(Txt::new(String::from_str(alloc, word)?))
}

/// Reads the label of a call that has no other word and no array.
pub fn read_label_alone(
    alloc: Global,
    words: &[&str],
    array: Option<&str>,
) -> Result<Txt, LineFault>
    ensures { IsShaped result
        (label_alone (map (λ w. w.now) words.now) (option_copied array.entry)) }
{
    if array.is_some() {
        return Err(LineFault::BadShape);
    }
    match words {
        [label] => read_label(alloc, label),
        _ => Err(LineFault::BadShape),
    }
}

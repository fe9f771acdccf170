ghost use Rattle.std.specs.Prelude.{◌≡◌, IfOk, string_bytes};
ghost use Rattle.dsql_script_show.specs.Summary.{front_of, line_of};

use crate::summary::Summary;
use dsql_history::Memory;
use std::alloc::Global;

/// Returns the beginning of the summary's line: its first three numbers.
fn front(alloc: Global, it: &Summary) -> Result<String, Memory>
    ensures { IfOk result (λ text. string_bytes text ≡ front_of it.now) }
{
    let Summary {
        lines,
        calls,
        connections,
        ..
    } = it;
    Ok(format!(in alloc; "[\"summary\",{lines},{calls},{connections}")?)
}

/// Returns the line of a summary, with its line feed.
pub fn summary_line(alloc: Global, it: &Summary) -> Result<String, Memory>
    ensures { IfOk result (λ line. string_bytes line ≡ line_of it.now) }
{
    let Summary {
        entries,
        oks,
        errors,
        ..
    } = it;
    let front = front(alloc, it)?;
    Ok(format!(in alloc; "{front},{entries},{oks},{errors}]\n")?)
}

//! Generates the lines of a script.
ghost use Rattle.std.specs.Prelude.{◌≡◌};
ghost use Rattle.dsql_run_outcome.specs.Headline.{seen_notes};
ghost use Rattle.dsql_run_outcome.specs.Summing.{GeneratesAndTells};

use dsql_run_outcome::{GenerateFault, Sink, Stop, generate, tell};
use std::alloc::Global;

/// Writes the given number of lines of a script and returns a status. If something stopped that, notes what it
/// was.
pub(crate) fn generate_lines<K: Sink, E: Sink>(
    alloc: Global,
    lines: u32,
    output: &mut K,
    notes: &mut E,
) -> u8
    ensures generated { GeneratesAndTells lines (seen_notes K.Sink output.old) (seen_notes K.Sink output.new)
        (seen_notes E.Sink notes.old) (seen_notes E.Sink notes.new) result }
    ensures silent { result ≡ 0 → notes.new ≡ notes.old }
{
    let told = match generate(alloc, lines, output) {
        Ok(()) => Ok(()),
        Err(GenerateFault::Failed) => Err(Stop::Write),
        Err(GenerateFault::Memory) => Err(Stop::Memory),
    };
    tell(alloc, &told, notes)
}

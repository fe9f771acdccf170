ghost use Rattle.std.specs.Prelude.{◌≡◌, ℕ, List, Option, IfOk};
ghost use Rattle.dsql_driver_stream.specs.Faults.{CountsFaults};
ghost use Rattle.dsql_script_source.specs.Naming.{LearnsLabel};
ghost use Rattle.dsql_script_source.specs.Reading.{HasRead, ReadsHead, IsHeadRead};
ghost use Rattle.dsql_script_source.specs.Script.{nothing};
ghost use Rattle.dsql_script_source.specs.Stops.{is_read_fault};

use crate::script::ScriptReader;
use crate::stop::Stop;
use dsql_history::{Fleet, Source};
use dsql_script_reader::ScriptLine;
use std::alloc::Global;

/// Reads a script's first lines and returns the first one that isn't skipped, a version line or a caps line.
/// Returns `None` if there is no such line. Asks the fleet for what a caps line among them names.
///
/// # Errors
///
/// The source's fault, a lack of memory, or the line that is refused.
pub fn read_head<S: Source, F: Fleet>(
    alloc: Global,
    script: &mut ScriptReader,
    input: &mut S,
    fleet: &mut F,
) -> Result<Option<ScriptLine>, Stop>
    ensures reads { (before : Option (List ℕ)) → HasRead before script.old (S.left input.old) nothing
        → ReadsHead before result script.new (S.left input.new) (F.preferred fleet.old) (F.preferred fleet.new)
        (F.ability fleet.old) (F.ability fleet.new) }
    ensures first { IsHeadRead result script.new.reader }
    ensures faults { CountsFaults (is_read_fault result) (S.faults input.old) (S.faults input.new) }
    ensures named { IfOk result (λ line. LearnsLabel line script.old.reader script.new.reader) }
    ensures unasked { F.told fleet.new ≡ F.told fleet.old }
{
    while let Some(line) = script.next(alloc, input)? {
        match line {
            ScriptLine::Skip | ScriptLine::Version(_) => {}
            ScriptLine::UseCaps(caps) => fleet.prefer(caps),
            line => return Ok(Some(line)),
        }
    }
    Ok(None)
}

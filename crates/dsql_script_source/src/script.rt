ghost use Rattle.std.specs.Prelude.{◌≡◌, ◌+◌, ◌≤◌, ℕ, Bool, List, Option, true, false, [], None, IfOk, IfErr, IfSome, is_some, length};
ghost use Rattle.dsql_driver_stream.specs.Faults.{CountsFaults};
ghost use Rattle.dsql_driver_stream.specs.Lines.{ahead, SawTheEnd};
ghost use Rattle.dsql_script_reader.specs.ScriptHead.{unread_by, after, labels_after};
ghost use Rattle.dsql_script_reader.specs.ScriptLines.{most_lines, read_of};
ghost use Rattle.dsql_script_reader.specs.declared.script.Head.{Head};
ghost use Rattle.dsql_script_source.specs.Naming.{LearnsLabel};
ghost use Rattle.dsql_script_source.specs.Position.{position};
ghost use Rattle.dsql_script_source.specs.Racing.{IsRacedLine};
ghost use Rattle.dsql_script_source.specs.Reading.{HasReadBy, ReadToBy, IsBodyLine, ends_head, NoLine, to_come, ReadsOn, TakesLine, DropsUnfinished, StopsReading, IsRefusal, came};
ghost use Rattle.dsql_script_source.specs.Script.{Said, nothing};
ghost use Rattle.dsql_script_source.specs.Stops.{is_read_fault, IsReadStop};
ghost use Rattle.dsql_script_source.specs.declared.stop.Stop.TheVariants.{Read};

use crate::stop::Stop;
use dsql_driver_stream::LineReader;
use dsql_history::{Memory, Source};
use dsql_script_reader::{LineFault, Reader, ScriptLine};
use std::alloc::Global;
use std::marker::Model;

/// A reader of a script, line by line. Contracts see what it has read ahead, and how far the script has been
/// read.
#[derive(Drop)]
pub struct ScriptReader {
    /// Reads the lines from the source.
    lines: LineReader,
    /// Reads what each line says.
    reader: Reader,
    /// The line that was read last.
    line: Vec<u8>,
}

impl Model for ScriptReader {
    ghost use Rattle.dsql_script_source.specs.Position.{Position};

    ghost Value = { Position };

    ghost view = { λ r. record { lines = r.lines; reader = r.reader } };
}

impl ScriptReader {
    /// Returns a reader that has read nothing, of a script for a race if `race` is true.
    pub fn new(alloc: Global, race: bool) -> Result<ScriptReader, Memory>
        ensures lines { IfOk result (λ r. r.lines ≡ record { pending = []; ended = false }) }
        ensures reader { IfOk result (λ r. r.reader ≡ unread_by race) }
        ensures first { (left : Option (List ℕ)) → IfOk result (λ r. HasReadBy race left r left nothing) }
    {
        Ok(ScriptReader {
            lines: LineReader::new(alloc)?,
            reader: Reader::new(alloc, race),
            line: Vec::new(alloc),
        })
    }

    /// Reads the next line, if there is one. After the first line that is neither skipped nor the version line,
    /// it returns no version line and no caps line. In a script for a race it returns no line that sets the moment,
    /// holds a call or asks for one step.
    ///
    /// # Errors
    ///
    /// The source's fault, a lack of memory, or the line that is refused.
    pub fn next<S: Source>(
        &mut self,
        alloc: Global,
        input: &mut S,
    ) -> Result<Option<ScriptLine>, Stop>
        ensures reads { (race : Bool) (before : Option (List ℕ)) (says : Said)
            → HasReadBy race before self.old (S.left input.old) says
            → ReadToBy race result before self.new (S.left input.new) says }
        ensures body { self.old.reader.head ≡ Head.Begun → IfOk result IsBodyLine }
        ensures begun { self.old.reader.head ≡ Head.Begun → self.new.reader.head ≡ Head.Begun }
        ensures raced { self.old.reader.race ≡ true → IfOk result IsRacedLine }
        ensures race { self.new.reader.race ≡ self.old.reader.race }
        ensures headed { IfOk result (λ line. IfSome line (λ says. ends_head says ≡ true → self.new.reader.head
            ≡ Head.Begun)) }
        ensures counted { (race : Bool) (before : Option (List ℕ)) (says : Said)
            → HasReadBy race before self.old (S.left input.old) says
            → length says.lines + came result ≡ self.new.reader.lines }
        ensures numbered { IfOk result (λ line. IfSome line (λ _. self.new.reader.lines ≡ self.old.reader.lines + 1)) }
        ensures few { IfOk result (λ line. IfSome line (λ _. self.new.reader.lines ≤ most_lines)) }
        ensures readable { IfErr result IsReadStop }
        ensures stays { NoLine result self.old.reader self.new.reader }
        ensures named { IfOk result (λ line. LearnsLabel line self.old.reader self.new.reader) }
        ensures labels { IfOk result (λ line. IfSome line (λ says. self.new.reader.labels
            ≡ labels_after self.old.reader.labels says)) }
        ensures faults { CountsFaults (is_read_fault result) (S.faults input.old) (S.faults input.new) }
    {
        take_line(
            alloc,
            &mut self.lines,
            &mut self.reader,
            &mut self.line,
            input,
        )
    }

    /// Returns how many lines were read.
    pub fn count(&self) -> u16
        ensures { result ≡ self.now.reader.lines }
    {
        self.reader.lines()
    }
}

/// Takes the next line from the source and reads it, if there is one.
fn take_line<S: Source>(
    alloc: Global,
    lines: &mut LineReader,
    reader: &mut Reader,
    line: &mut Vec<u8>,
    input: &mut S,
) -> Result<Option<ScriptLine>, Stop>
    ensures read { IfOk result (λ one. ReadsOn one (to_come (position lines.old reader.old) (S.left input.old))
        (to_come (position lines.new reader.new) (S.left input.new))) }
    ensures taken { IfOk result (λ one. IfSome one (λ says. lines.new.ended ≡ false
        → TakesLine reader.old line.new.items says (ahead lines.old (S.left input.old))
        (ahead lines.new (S.left input.new)))) }
    ensures dropped { result ≡ Err Read
        → DropsUnfinished lines.old.ended line.new.items (ahead lines.old (S.left input.old))
        (S.left input.new) }
    ensures ended { lines.old.ended ≡ true → lines.new.ended ≡ true }
    ensures end { result ≡ Ok None → SawTheEnd lines.old (S.left input.old)
        → IfSome (S.left input.new) (λ bytes. bytes ≡ []) }
    ensures stopped { IfErr result (StopsReading (to_come (position lines.old reader.old) (S.left input.old))) }
    ensures placed { IfOk result (λ one. IfSome one (λ says. reader.new ≡ after reader.old says)) }
    ensures is { IfOk result (λ one. IfSome one (λ says. read_of reader.old line.new.items ≡ Ok says)) }
    ensures stays { NoLine result reader.old reader.new }
    ensures named { IfOk result (λ line. LearnsLabel line reader.old reader.new) }
    ensures few { IfOk result (λ one. IfSome one (λ _. reader.new.lines ≤ most_lines)) }
    ensures faults { CountsFaults (is_read_fault result) (S.faults input.old) (S.faults input.new) }
    ensures telling { is_some (S.left input.new) ≡ is_some (S.left input.old) }
    ensures sees { SawTheEnd lines.old (S.left input.old) → SawTheEnd lines.new (S.left input.new) }
{
    if lines.next_line(input, line)? {
        return Ok(Some(read_line(reader, alloc, line)?));
    }
    Ok(None)
}

/// Reads a line, or returns the number of the refused line with its fault.
fn read_line(reader: &mut Reader, alloc: Global, line: &[u8]) -> Result<ScriptLine, Stop>
    ensures ok { IfOk result (λ s. read_of reader.old line.now ≡ Ok s) }
    ensures counted { IfOk result (λ s. reader.new ≡ after reader.old s) }
    ensures same { IfErr result (λ _. reader.new ≡ reader.old) }
    ensures refused { IfErr result (IsRefusal reader.old line.now) }
{
    let number = u32::from(reader.lines()) + 1;
    match reader.read_line(alloc, line) {
        Ok(line) => Ok(line),
        Err(LineFault::Memory) => Err(Stop::Memory),
        Err(fault) => Err(Stop::Refused { number, fault }),
    }
}

//! Reads the whole of a script before it is raced.
ghost use Rattle.std.specs.Prelude.{◌≡◌, ◌≤◌, ◌∷◌, ◌++◌, ℕ, List, [], true, sum_by, IfErr, OnOk, OnErr};
ghost use Rattle.std.specs.List.{list_all};
ghost use Rattle.dsql_driver_stream.specs.Faults.{CountsFaults};
ghost use Rattle.dsql_follows.specs.Labels.{times_in};
ghost use Rattle.dsql_script_source.specs.Racing.{may_race};
ghost use Rattle.dsql_script_source.specs.Reading.{Prefers, ReadsScript};
ghost use Rattle.dsql_script_source.specs.Script.{caps_asked, line_as_played};
ghost use Rattle.dsql_script_source.specs.Stops.{is_read_fault, IsReadStop};

use crate::line::line_as_played;
use crate::script::ScriptReader;
use crate::stop::Stop;
use dsql_follows::Line;
use dsql_history::{Caps, Fleet, Memory, Source};
use dsql_script_reader::ScriptLine;
use std::alloc::Global;

/// A script that was read for a race: its lines as they are played, the oldest first, and what stopped the reading, if
/// anything did.
#[derive(Drop)]
pub struct ReadScript {
    pub lines: Vec<Line>,
    pub stopped: Result<(), Stop>,
}

/// Reads the whole of a script for a race. Asks the fleet for what the caps line names, if there is one. At a refused
/// line, a fault of the source or a lack of memory the reading stops, and the lines before are returned.
pub fn read_script<S: Source, F: Fleet>(alloc: Global, input: &mut S, fleet: &mut F) -> ReadScript
    ensures reads { ReadsScript result.stopped result.lines.items (S.left input.old) (S.left input.new)
        (F.preferred fleet.old) (F.preferred fleet.new) (F.ability fleet.old) (F.ability fleet.new) }
    ensures may_race { list_all may_race result.lines.items ≡ true }
    ensures once { (label : List ℕ) → sum_by (times_in label) result.lines.items ≤ 1 }
    ensures readable { IfErr result.stopped IsReadStop }
    ensures faults { CountsFaults (is_read_fault result.stopped) (S.faults input.old) (S.faults input.new) }
    ensures untold { F.told fleet.new ≡ F.told fleet.old }
{
    let mut lines = Vec::new(alloc);
    let stopped = read_lines(alloc, &mut lines, input, fleet);
    ReadScript { lines, stopped }
}

/// Reads the lines of a script for a race, and keeps them in their order.
fn read_lines<S: Source, F: Fleet>(
    alloc: Global,
    lines: &mut Vec<Line>,
    input: &mut S,
    fleet: &mut F,
) -> Result<(), Stop>
    requires { lines.old.items ≡ [] }
    ensures reads { ReadsScript result lines.new.items (S.left input.old) (S.left input.new)
        (F.preferred fleet.old) (F.preferred fleet.new) (F.ability fleet.old) (F.ability fleet.new) }
    ensures may_race { list_all may_race lines.new.items ≡ true }
    ensures once { (label : List ℕ) → sum_by (times_in label) lines.new.items ≤ 1 }
    ensures readable { IfErr result IsReadStop }
    ensures faults { CountsFaults (is_read_fault result) (S.faults input.old) (S.faults input.new) }
    ensures untold { F.told fleet.new ≡ F.told fleet.old }
{
    let mut script = ScriptReader::new(alloc, true)?;
    while let Some(line) = script.next(alloc, input)? {
        keep_line(lines, fleet, line)?;
    }
    Ok(())
}

/// Keeps a line as it is played. Then asks the fleet for what the line names, if it is a caps line.
fn keep_line<F: Fleet>(lines: &mut Vec<Line>, fleet: &mut F, line: ScriptLine) -> Result<(), Memory>
    ensures ok { OnOk result (lines.new.items ≡ lines.old.items ++ line_as_played line ∷ []) }
    ensures err { OnErr result (lines.new.items ≡ lines.old.items) }
    ensures prefers { OnOk result (Prefers (caps_asked line) (F.preferred fleet.old) (F.preferred fleet.new)
        (F.ability fleet.old) (F.ability fleet.new)) }
    ensures unasked { OnErr result (fleet.new ≡ fleet.old) }
    ensures untold { F.told fleet.new ≡ F.told fleet.old }
{
    let asked = caps_asked(&line);
    lines.push(line_as_played(line))?;
    if let Some(caps) = asked {
        fleet.prefer(caps);
    }
    Ok(())
}

/// Returns what a line asks the driver for, if it is a caps line.
fn caps_asked(line: &ScriptLine) -> Option<Caps>
    ensures { result ≡ caps_asked line.now }
{
    match line {
        ScriptLine::UseCaps(caps) => Some(*caps),
        _ => None,
    }
}

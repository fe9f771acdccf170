ghost use Rattle.std.specs.Prelude.{◌≡◌};
ghost use Rattle.dsql_script_source.specs.Script.{line_as_played};

use dsql_follows::Line;
use dsql_script_reader::ScriptLine;

/// Returns a line of a script as it is played. Version lines and caps lines concern only the time before the
/// run: a run skips them.
pub fn line_as_played(line: ScriptLine) -> Line
    ensures { result ≡ line_as_played line }
{
    match line {
        ScriptLine::Skip | ScriptLine::Version(_) | ScriptLine::UseCaps(_) => Line::Skip,
        ScriptLine::Control(control) => Line::Control(control),
        ScriptLine::Fault { conn, nth, what } => Line::Fault { conn, nth, what },
        ScriptLine::Client {
            client,
            op,
            held: true,
        } => Line::Start { client, op },
        ScriptLine::Client {
            client,
            op,
            held: false,
        } => Line::Client { client, op },
        ScriptLine::Step(client) => Line::Step { client },
        ScriptLine::StepHouse => Line::StepHouse,
    }
}

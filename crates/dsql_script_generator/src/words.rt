//! What the words of the command line ask for.
ghost use Rattle.std.specs.Prelude.{◌≡◌};
ghost use Rattle.dsql_script_generator.specs.Words.{command_alone, command_of, command_with};

use crate::count::count_of;
use dsql_value::Txt;

/// What the program's words ask for.
#[derive(Clone, Copy)]
pub enum Command {
    /// Play a script and write its report.
    Play,
    /// Play a script and write its summary.
    Summarize,
    /// Race a script and write its report.
    Race,
    /// Generate this many lines of a script.
    Generate(u32),
}

/// Returns what the program's words, without its name, ask for. `None` means that they aren't accepted.
/// Accepted are `play`, `play --summary`, `race`, and `gen N` with N from 1 to 10,000.
pub fn command_of(words: &[Txt]) -> Option<Command>
    ensures { result ≡ command_of words.now }
{
    match words {
        [word] => command_alone(word.as_str()),
        [word, more] => command_with(word.as_str(), more.as_str()),
        _ => None,
    }
}

/// Returns what one word asks for.
fn command_alone(word: &str) -> Option<Command>
    ensures { result ≡ command_alone word.now }
{
    match word {
        "play" => Some(Command::Play),
        "race" => Some(Command::Race),
        _ => None,
    }
}

/// Returns what a word and the one after it ask for.
fn command_with(word: &str, more: &str) -> Option<Command>
    ensures { result ≡ command_with word.now more.now }
{
    if word == "play" && more == "--summary" {
        return Some(Command::Summarize);
    }
    if word == "gen" {
        match count_of(more) {
            Some(lines) => Some(Command::Generate(lines)),
            None => None,
        }
    } else {
        None
    }
}

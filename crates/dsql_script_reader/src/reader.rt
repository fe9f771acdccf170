ghost use Rattle.std.specs.Prelude.{◌≡◌, ◌≢◌, ◌≤◌, map, Ok, Err, IfOk, IfErr, OnErr};
ghost use Rattle.std.specs.Option.{option_copied};
ghost use Rattle.std.specs.Str.Lines.{strip_carriage_return};
ghost use Rattle.dsql_script_reader.specs.ScriptHead.{Progress, unread_by, after};
ghost use Rattle.dsql_script_forms.specs.Outcomes.{IsReading};
ghost use Rattle.dsql_script_reader.specs.ScriptLines.{read_of, line_of, text_by, form_by, form_of, race_refuses, most_lines};

use crate::labels::Labels;
use crate::script::{Head, ScriptLine};
use crate::{body, head, plan};
use dsql_driver_stream::LONGEST;
use dsql_history::Setting;
use dsql_script_calls::{split_array, split_words};
use dsql_script_forms::{LineFault, What};
use std::alloc::Global;
use std::marker::Model;

/// The number of lines that a script may have.
const MAX_LINES: u16 = 10_000;

/// A reader that reads a script line by line. Contracts see how many lines it has read, counting skipped lines
/// and no refused ones. They also see whether a version line or a caps line may still follow, and the labels
/// that the lines made, each with its kind. And they see whether the script is for a race.
///
/// Exactly one space separates the words of a line. If a line holds a space followed by `[`, a JSON array begins at the
/// first such `[` and runs to the line's end. `version 1` may stand before all lines that aren't skipped. `caps` names
/// what the driver can do, each once and in the order of a report. It may stand before all but that line. Any other
/// line that isn't skipped sets a limit, sets the clock, plans a fault, is a client's call, or asks for one step.
///
/// `maxopen N`, `maxidle N`, `maxlife D` and `maxidletime D` set a limit. N and D are decimal numbers that fit an
/// `i64`, without a leading zero; a negative one begins with a minus. D is in nanoseconds. `tick NOW` gives the present
/// moment in nanoseconds: NOW is a decimal number that fits a `u64`, without a sign and without a leading zero. `fault
/// W N bad`, `fault W N invalid` and `fault W N fail` plan a fault. It comes in place of the answer to the Nth call of
/// connection W. W and N are such numbers that fit a `u32`, and aren't 0. Only `fail` has an array, which holds its
/// text and nothing else. A client's call is `cN` and the words of the call, with N from 1 to 64 without a leading
/// zero. The call is held if `start` stands before them. `step cN` asks for one step of a client, and `step house` for
/// one of the layer itself.
///
/// In a race each client goes on by itself, and a clock gives the moments. So no line of a race begins with `tick`,
/// `start` or `step`.
///
/// `exec T [@K]`, `one T DESTS [@K]` and `query R T [@K]` have an array of a text and at most 32 arguments. T is `db`
/// or the label of a transaction, and K is a token, if the call names one. `exec` executes the text on T. `one` reads
/// one row of it into 1 to 32 destinations. `query` queries it and makes the label R for its rows. `next R`, `scan R
/// DESTS`, `rowsclose R` and `err R` have no array, and concern the rows whose label is R. `begin X T [level=L] [ro]
/// [@K]` has no array, and makes the label X for its transaction. L is `read_uncommitted`, `read_committed`,
/// `write_committed`, `repeatable_read`, `snapshot`, `serializable` or `linearizable`; without it the level is the
/// default one. With `ro` the transaction only reads. `commit X` and `rollback X` have no array, and end the
/// transaction whose label is X. `dbclose` and `stats` have no array either. A transaction can be begun on `db` alone.
/// No line makes a token, so no call names one. A line makes a label, for rows or for a transaction, before other lines
/// name it, and no label is made twice. The name of a label or a token is a lower-case letter and at most 31 of `a` to
/// `z`, `0` to `9` and `_`. It isn't `db`. Commas separate destinations. Each is `text`, `bytes`, `bool`, `i8`, `i16`,
/// `i32`, `i64`, `u8`, `u16`, `u32`, `u64`, `time` or `any`. Or it also takes a nil: `null:text`, `null:i64`,
/// `null:i32`, `null:i16`, `null:u8`, `null:bool` or `null:time`.
///
/// | argument | as JSON |
/// |---|---|
/// | `Nil`, `Bool`, `Text` | `null`, `true` or `false`, a string |
/// | `I64`, `U64` | a whole number that fits an `i64`, one above that fits a `u64` |
/// | `I8`, `I16`, `I32`, `U8`, `U16`, `U32`, `U64` | `{"i8":N}` and so on, N in the type's range |
/// | `Bytes` | `{"bytes":"00ff"}`, lower-case hexadecimal digits in pairs |
/// | `Time` | `{"time":N}`, nanoseconds since 1970 |
/// | `NullText` and its like | `{"null_text":V}`, and `null_i64`, `null_i32`, `null_i16`, `null_u8`, |
/// | | `null_bool`, `null_time`; V is `null` or what the form holds |
/// | with a name | `{"name":"x","arg":A}`, A an argument without a name |
#[derive(Drop)]
pub struct Reader {
    lines: u16,
    head: Head,
    labels: Labels,
    race: bool,
}

impl Model for Reader {
    ghost Value = { Progress };

    ghost view = { λ r. record { lines = r.lines; head = r.head; labels = r.labels; race = r.race } };

    ghost invariant = { λ r. r.lines ≤ most_lines };
}

impl Reader {
    /// Returns a reader that has read no line, of a script for a race if `race` is true. It takes no memory.
    pub fn new(alloc: Global, race: bool) -> Reader
        ensures { result ≡ unread_by race }
    {
        Reader {
            lines: 0,
            head: Head::First,
            labels: Labels::new(alloc),
            race,
        }
    }

    /// Reads the next line, which comes without its line feed. It drops one carriage return at the line's end.
    /// A refused line leaves the reader as it was.
    pub fn read_line(&mut self, alloc: Global, line: &[u8]) -> Result<ScriptLine, LineFault>
        ensures ok { IfOk result (λ s. read_of self.old line.now ≡ Ok s) }
        ensures err { IfErr result (λ f. f ≢ LineFault.Memory → read_of self.old line.now ≡ Err f) }
        ensures counted { IfOk result (λ s. self.new ≡ after self.old s) }
        ensures unchanged { OnErr result (self.new ≡ self.old) }
    {
        if self.lines >= MAX_LINES {
            return Err(LineFault::TooMany(What::Lines));
        }
        let read = read_bytes(alloc, self.race, self.head, line)?;
        self.labels.take(alloc, &read)?;
        self.lines += 1;
        self.head = self.head.after(&read);
        Ok(read)
    }

    /// Returns how many lines it has read.
    pub fn lines(&self) -> u16
        ensures { result ≡ self.now.lines }
    {
        self.lines
    }
}

fn read_bytes(alloc: Global, race: bool, head: Head, line: &[u8]) -> Result<ScriptLine, LineFault>
    ensures { IsReading result (line_of race head line.now) }
{
    if line.len() > LONGEST {
        return Err(LineFault::TooLong);
    }
    let Ok(text) = str::from_utf8(line) else {
        return Err(LineFault::NotUtf8);
    };
    read_text(alloc, race, head, without_return(text))
}

/// Returns the line without the one carriage return at its end, if there is one.
fn without_return(line: &str) -> &str
    ensures { result.now ≡ strip_carriage_return line.now }
{
    line.strip_suffix('\r').unwrap_or(line)
}

fn read_text(alloc: Global, race: bool, head: Head, text: &str) -> Result<ScriptLine, LineFault>
    ensures { IsReading result (text_by race head text.now) }
{
    if text.is_empty() || text.starts_with('#') {
        return Ok(ScriptLine::Skip);
    }
    let (before, array) = split_array(text);
    let words = split_words(alloc, before)?;
    read_words(alloc, race, head, &words, array)
}

/// Reads a line by its words and its array, unless it is of a race that refuses it.
fn read_words(
    alloc: Global,
    race: bool,
    head: Head,
    words: &[&str],
    array: Option<&str>,
) -> Result<ScriptLine, LineFault>
    ensures { IsReading result
        (form_by race head (map (λ w. w.now) words.now) (option_copied array.entry)) }
{
    if race && race_refuses(words) {
        return Err(LineFault::NoSuchWord);
    }
    read_form(alloc, head, words, array)
}

/// Returns whether a race refuses a line of these words.
fn race_refuses(words: &[&str]) -> bool
    ensures { result ≡ race_refuses (map (λ w. w.now) words.now) }
{
    match words {
        [first, ..] => *first == "tick" || *first == "start" || *first == "step",
        [] => false,
    }
}

/// Reads a line of any form by its words and its array.
fn read_form(
    alloc: Global,
    head: Head,
    words: &[&str],
    array: Option<&str>,
) -> Result<ScriptLine, LineFault>
    ensures { IsReading result
        (form_of head (map (λ w. w.now) words.now) (option_copied array.entry)) }
{
    let [first, rest @ ..] = words else {
        return Err(LineFault::NoSuchWord);
    };
    match *first {
        "version" => head::read_version(head, rest, array),
        "caps" => head::read_caps(alloc, head, rest, array),
        "maxopen" => body::read_set(Setting::MaxOpen, rest, array),
        "maxidle" => body::read_set(Setting::MaxIdle, rest, array),
        "maxlife" => body::read_set(Setting::MaxLife, rest, array),
        "maxidletime" => body::read_set(Setting::MaxIdleTime, rest, array),
        "tick" => body::read_tick(rest, array),
        "fault" => plan::read_plan(alloc, rest, array),
        "start" => body::read_start(alloc, rest, array),
        "step" => body::read_step(rest, array),
        client => body::read_client(alloc, false, client, rest, array),
    }
}

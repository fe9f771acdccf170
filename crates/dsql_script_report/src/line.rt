//! Writes events as the lines of a report.

mod events;

ghost use Rattle.std.specs.Prelude.{◌≡◌, ◌++◌, IfOk, OnOk, OnErr, IsUtf8, length, take};
ghost use Rattle.serde_json.specs.Written.{compact_text};
ghost use Rattle.dsql_script_report.specs.Lines.{json_of, line_of};

use dsql_history::{Event, Memory, Txt};
use events::write_event;
use json::Writer;
use std::alloc::{AllocError, Global};
use std::mem;

/// Returns the line of an event in a report: a JSON array without spaces, in UTF-8, and a line feed.
///
/// | event | line |
/// |---|---|
/// | `Run` | `["run",VERSION,[NAMES]]`, the names of what the driver can do |
/// | `Entered` | `["enter",CLIENT,N,"WORDS",ARRAY]`, the words and the array of the script's line, |
/// | | or `["enter",CLIENT,N,"WORDS"]` if that line has no array |
/// | `Heard` | `["heard",CONN,TENURE,OWNER,N,TX,CALL,ANSWER]`, N and TX 0 if there is none |
/// | `Pool` | `["open",CONN,N]`, `["fell",CONN,N]`, N 0 if it is for no call of its own |
/// | | `["lend",CONN,TENURE,OWNER]`, `["back",CONN]` |
/// | | `["close",CONN,CAUSE]`, `["gone",CONN]` |
/// | `Waits` | `["wait",N]` |
/// | `Ticked` | `["tick",NOW]`, in nanoseconds |
/// | `SetLimit` | `["set","maxopen",N]`, `["set","maxidle",N]`, |
/// | | `["set","maxlife",D]`, `["set","maxidletime",D]`, in nanoseconds |
/// | `Replied` | `["reply",N,REPLY]` |
/// | `Ended` | `["ended"]` |
///
/// WORDS are those of the script's line after the client. Calls on a transaction name it in place of `db`. A
/// begin names its level, unless that is the default one, and then `ro`, if it asks for a transaction that only
/// reads.
///
/// An owner is `"call:N"`, `"tx:N"`, `"pin:N"` or `"house"`, and a cause is a word such as `"over_limit"`. Driver
/// calls, answers and replies are arrays that begin with a word. A value is `null`, a number, `true`, `false`, a
/// string, `{"bytes":"00ff"}` with lower-case hexadecimal digits, or `{"time":N}` in nanoseconds since 1970. A
/// parameter with a name is `{"name":NAME,"value":VALUE}`. The array of a call is its text and then its arguments. Each
/// is spelled as in a script, with its keys in the order of their bytes. An argument with a name is
/// `{"arg":ARG,"name":NAME}`. An unsigned number of 64 bits is `{"u64":N}` if it is at most 9,223,372,036,854,775,807,
/// and a plain number if it is larger. An unsigned number read out of a row is written in the same way. Anything else
/// read out of a row is written as a value is. Statistics are the nine numbers of Go's `DBStats` in its order, each a
/// plain number. A lack of memory is the only error.
pub fn event_line(alloc: Global, event: &Event) -> Result<Txt, Memory>
    ensures { IfOk result (λ t. t ≡ line_of event.now) }
{
    let mut line = Vec::new(alloc);
    append_line(alloc, event, &mut line)?;
    Ok(Txt::new(String::from_utf8(line).unwrap()))
}

/// Appends the line of an event, as [`event_line`] returns it, to the lines in a buffer. The line is in UTF-8.
/// A lack of memory is the only error, and leaves the buffer's bytes as they were.
pub fn append_line(alloc: Global, event: &Event, lines: &mut Vec<u8>) -> Result<(), Memory>
    ensures ok { OnOk result (lines.new.items ≡ lines.old.items ++ line_of event.now) }
    ensures utf8 { OnOk result (IsUtf8 (line_of event.now)) }
    ensures err { OnErr result (lines.new.items ≡ lines.old.items) }
{
    let len = lines.len();
    let appended = append_whole(alloc, event, lines);
    if appended.is_err() {
        lines.truncate(len);
    }
    Ok(appended?)
}

/// Appends an event's array and a line feed, or a part of them if it fails.
fn append_whole(alloc: Global, event: &Event, lines: &mut Vec<u8>) -> Result<(), AllocError>
    ensures ok { OnOk result (lines.new.items ≡ lines.old.items ++ line_of event.now) }
    ensures utf8 { OnOk result (IsUtf8 (line_of event.now)) }
    ensures front { take (length lines.old.items) lines.new.items ≡ lines.old.items }
{
    append_array(alloc, event, lines)?;
    lines.push(b'\n')?;
    Ok(())
}

/// Appends an event's array, or a part of it if it fails.
fn append_array(alloc: Global, event: &Event, lines: &mut Vec<u8>) -> Result<(), AllocError>
    ensures ok { OnOk result (lines.new.items
        ≡ lines.old.items ++ compact_text (json_of event.now)) }
    ensures utf8 { OnOk result (IsUtf8 (compact_text (json_of event.now))) }
    ensures front { take (length lines.old.items) lines.new.items ≡ lines.old.items }
{
    let mut json = Writer::new(mem::replace(lines, Vec::new(alloc)));
    let written = write_event(alloc, &mut json, event);
    *lines = json.into_inner();
    written
}

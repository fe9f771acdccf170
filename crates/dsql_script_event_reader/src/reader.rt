ghost use Rattle.std.specs.Prelude.{◌≢◌, IfOk, IfErr};
ghost use Rattle.dsql_script_forms.specs.Outcomes.{IsReading};
ghost use Rattle.dsql_script_event_reader.specs.Events.{if_spelled, text_event, reading_of};
ghost use Rattle.dsql_script_event_reader.specs.Refusals.{Tells, Refuses};

use crate::events;
use dsql_history::Event;
use dsql_script_calls::read_array;
use dsql_script_event_lines::{is_line, is_too_long, is_well_formed};
use dsql_script_forms::LineFault;
use std::alloc::Global;

/// Reads the event that a line of a report records. The line comes without its line feed, and is read only as it is
/// spelled. A line that says the same in another way is refused.
///
/// A line is refused for the first of these reasons. It has more than 65,536 bytes (`TooLong`), its bytes aren't UTF-8
/// (`NotUtf8`), or it isn't JSON (`BadJson`). Or it isn't the line of an event that a report may record (`BadShape`).
/// In such an event, one of 64 clients enters a call. The label that the call makes and the one that it is made on, if
/// it has them, are names. Its destinations, if it is to have some, are one or more. No answer is `Memory`. The fault
/// `Memory` may take the place of any other result.
pub fn read_event(alloc: Global, line: &[u8]) -> Result<Event, LineFault>
    ensures told { IfOk result (λ e. Tells line.now e) }
    ensures refused { IfErr result (λ f. f ≢ LineFault.Memory → Refuses f line.now) }
    ensures reading { IsReading result (reading_of line.now) }
{
    read_bytes(alloc, line)
}

fn read_bytes(alloc: Global, line: &[u8]) -> Result<Event, LineFault>
    ensures { IsReading result (reading_of line.now) }
{
    if is_too_long(line) {
        return Err(LineFault::TooLong);
    }
    let Ok(text) = str::from_utf8(line) else {
        return Err(LineFault::NotUtf8);
    };
    read_text(alloc, text)
}

fn read_text(alloc: Global, text: &str) -> Result<Event, LineFault>
    ensures { IsReading result (text_event text.now) }
{
    let array = read_array(alloc, text)?;
    let event = events::read_event(alloc, &array)?;
    if_spelled(alloc, text, event)
}

/// Returns the event if its labels are names and this is its line without the line feed.
fn if_spelled(alloc: Global, text: &str, event: Event) -> Result<Event, LineFault>
    ensures { IsReading result (if_spelled text.now event) }
{
    if !is_well_formed(&event) || !is_line(alloc, text, &event)? {
        return Err(LineFault::BadShape);
    }
    Ok(event)
}

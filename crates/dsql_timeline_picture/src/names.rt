//! The names of bars: parts of the events' lines.
ghost use Rattle.std.specs.Prelude.{◌≡◌};
ghost use Rattle.dsql_timeline_picture.specs.Names.{part_of, quoted, name_in};

use dsql_history::{Event, Move};

/// Returns which part of an event's line names its bar, if the line is cut at its quotes. `None` stands for all of it.
fn part_of(event: &Event) -> Option<usize>
    ensures { result ≡ part_of event.now }
{
    match event {
        Event::Ticked(_) | Event::SetLimit(_, _) => None,
        Event::Entered { .. } | Event::Replied { .. } => Some(3),
        Event::Pool(Move::Lend { .. }) => Some(3),
        Event::Pool(Move::CloseStart { .. }) => Some(3),
        Event::Heard(_) => Some(5),
        _ => Some(1),
    }
}

/// Returns the name of an event's bar, which stands in the event's line.
pub(crate) fn name_in<'a>(event: &Event, line: &'a [u8]) -> &'a [u8]
    ensures { result.now ≡ name_in event.now line.now }
{
    match part_of(event) {
        Some(place) => quoted(line, place),
        None => line,
    }
}

/// Returns a part of a line that is cut at its quotes, or nothing if it has fewer parts.
fn quoted(line: &[u8], place: usize) -> &[u8]
    ensures { result.now ≡ quoted line.now place }
{
    line.split(|byte| *byte == b'"').nth(place).unwrap_or(b"")
}

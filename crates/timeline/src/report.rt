//! Reads a report, line by line.
ghost use Rattle.std.specs.Prelude.{◌≡◌, ◌≤◌, ◌+◌, IfOk, length};
ghost use Rattle.std.specs.List.{position_or_len};
ghost use Rattle.dsql_driver_stream.specs.Lines.{is_line_feed, first_line, after_line, all_lines};
ghost use Rattle.dsql_script_source.specs.declared.stop.Stop.TheVariants.{Refused};
ghost use Rattle.timeline.specs.Reading.{IsRead, is_memory};

use dsql_history::{Event, Memory};
use dsql_script::{LineFault, What, read_event};
use dsql_script_source::Stop;
use dsql_timeline_picture::MOST_EVENTS;
use std::alloc::Global;

/// The events of a report up to its end, or up to the first line that is refused.
#[derive(Drop)]
pub(crate) struct Report {
    pub(crate) events: Vec<Event>,
    /// The line that is refused, with its number and the reason.
    pub(crate) refused: Option<Stop>,
}

/// Returns how many bytes stand before the first line feed.
fn line_end(bytes: &[u8]) -> usize
    ensures end { result ≡ position_or_len is_line_feed bytes.now }
    ensures within { result ≤ length bytes.now }
{
    bytes
        .iter()
        .position(|byte| *byte == b'\n')
        .unwrap_or(bytes.len())
}

/// Splits bytes at their first line feed, which it drops.
fn split_line(bytes: &[u8]) -> (&[u8], &[u8])
    ensures line { result.0.now ≡ first_line bytes.now }
    ensures rest { result.1.now ≡ after_line bytes.now }
{
    let end = line_end(bytes);
    let next = bytes.len().min(end + 1);
    (&bytes[..end], &bytes[next..])
}

/// Returns the stop at a line with this number, which is counted from 1.
fn refusal(number: usize, fault: LineFault) -> Option<Stop>
    requires { number ≤ MOST_EVENTS + 1 }
    ensures { result ≡ Some (Refused number fault) }
{
    Some(Stop::Refused {
        number: number as u32,
        fault,
    })
}

/// Returns whether a line wasn't read for lack of memory.
fn is_memory(fault: LineFault) -> bool
    ensures { result ≡ is_memory fault }
{
    matches!(fault, LineFault::Memory)
}

/// Reads the lines of a report. It stops at the first line that isn't an event's, and after 100,000 lines.
pub(crate) fn read_report(alloc: Global, report: &[u8]) -> Result<Report, Memory>
    ensures read { IfOk result (λ r. IsRead (all_lines report.now) r.events.items r.refused) }
    ensures few { IfOk result (λ r. length r.events.items ≤ MOST_EVENTS) }
{
    let mut events = Vec::new(alloc);
    let mut rest = report;
    while !rest.is_empty() {
        let number = events.len() + 1;
        if number > MOST_EVENTS {
            let refused = refusal(number, LineFault::TooMany(What::Lines));
            return Ok(Report { events, refused });
        }
        let (line, after) = split_line(rest);
        match read_event(alloc, line) {
            Ok(event) => events.push(event)?,
            Err(fault) => {
                if is_memory(fault) {
                    return Err(Memory);
                }
                let refused = refusal(number, fault);
                return Ok(Report { events, refused });
            }
        }
        rest = after;
    }
    Ok(Report {
        events,
        refused: None,
    })
}

//! Decides whether a text is an event's line, and whether a line is too long.
ghost use Rattle.std.specs.Prelude.{◌<◌, ◌↔◌, length, IsTrue, ◌≡◌, ◌∷◌, ◌++◌, [], IfOk, IfErr};
ghost use Rattle.dsql_script_event_lines.specs.Bounds.{most_bytes};
ghost use Rattle.std.specs.Str.{bytes_eq};
ghost use Rattle.dsql_script_report.specs.Lines.{line_of};

use dsql_history::Event;
use dsql_script_forms::LineFault;
use dsql_script_report::append_line;
use std::alloc::Global;

/// The most bytes that a line may have before its line feed.
const MAX_BYTES: usize = 65_536;

/// Returns whether a line, which is given without its line feed, has more bytes than a line may have.
pub fn is_too_long(line: &[u8]) -> bool
    ensures { IsTrue result ↔ (most_bytes < length line.now) }
{
    line.len() > MAX_BYTES
}

/// Returns whether a text followed by a line feed is an event's line. Fails with `LineFault::Memory` if memory
/// is lacking.
pub fn is_line(alloc: Global, text: &str, event: &Event) -> Result<bool, LineFault>
    ensures is { IfOk result (λ is. is ≡ bytes_eq (line_of event.now) (text.now ++ 10 ∷ [])) }
    ensures memory { IfErr result (λ f. f ≡ LineFault.Memory) }
{
    let mut line = Vec::from_slice(alloc, text.as_bytes())?;
    line.push(b'\n')?;
    let mut told = Vec::new(alloc);
    if append_line(alloc, event, &mut told).is_err() {
        return Err(LineFault::Memory);
    }
    Ok(told == line)
}

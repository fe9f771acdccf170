//! The page of a report.
ghost use Rattle.std.specs.Prelude.{◌≡◌, IfOk};
ghost use Rattle.dsql_driver_stream.specs.Lines.{all_lines};
ghost use Rattle.timeline.specs.Reading.{Shows};

use crate::report::{Report, read_report};
use dsql_history::Memory;
use dsql_script_source::Stop;
use dsql_timeline_picture::draw;
use std::alloc::Global;

/// The page of a report, and the line at which the picture ends because it is refused.
#[derive(Drop)]
pub(crate) struct Timeline {
    pub(crate) page: Vec<u8>,
    pub(crate) refused: Option<Stop>,
}

/// Returns the page with the picture of a report. It shows the events of the lines up to the first one that isn't an
/// event's. A lack of memory is the only error.
pub(crate) fn timeline_of(alloc: Global, report: &[u8]) -> Result<Timeline, Memory>
    ensures { IfOk result (λ t. Shows (all_lines report.now) t.page.items t.refused) }
{
    let Report { events, refused } = read_report(alloc, report)?;
    let page = draw(alloc, &events)?;
    Ok(Timeline { page, refused })
}

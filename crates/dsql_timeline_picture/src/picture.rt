//! The picture of a report.
ghost use Rattle.std.specs.Prelude.{◌≡◌, ◌≤◌, IfOk, length};
ghost use Rattle.dsql_timeline_picture.specs.Pictures.{picture_of};

use crate::bars::draw_events;
use crate::lanes::Lanes;
use dsql_history::{Event, Memory};
use dsql_script_show::{summary_line, summary_of};
use dsql_timeline_page::Page;
use std::alloc::Global;

/// The most events that a picture shows.
pub const MOST_EVENTS: usize = 100_000;

/// Returns the page with the picture of a report: its summary, its lanes, and a bar for each event. In the summary the
/// lines of the report stand for those of the script.
pub fn draw(alloc: Global, events: &[Event]) -> Result<Vec<u8>, Memory>
    requires { length events.now ≤ MOST_EVENTS }
    ensures { IfOk result (λ page. page.items ≡ picture_of events.now) }
{
    let columns = events.len();
    let lanes = Lanes::of(alloc, events)?;
    let summary = summary_line(alloc, &summary_of(columns as u64, events))?;
    let mut page = Page::new(alloc, summary.as_bytes(), columns, lanes.height())?;
    lanes.draw(alloc, columns, &mut page)?;
    draw_events(alloc, &lanes, events, &mut page)?;
    Ok(page.finish()?)
}

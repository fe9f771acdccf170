//! The bars of events.
ghost use Rattle.std.specs.Prelude.{◌≡◌, ◌++◌, OnOk, flat_map};
ghost use Rattle.dsql_timeline_picture.specs.Pictures.{drawn_text, rows_from, bar_of, bars_from};

use crate::kinds::{class_of, owner_of, width};
use crate::lanes::Lanes;
use crate::names::name_in;
use dsql_history::{Event, Memory};
use dsql_script_report::append_line;
use dsql_timeline_page::{Bar, Page};
use std::alloc::Global;

/// Returns how many rows high a bar is. In row 0 it goes through all rows.
fn rows_from(lanes: &Lanes, row: usize) -> usize
    ensures { result ≡ rows_from lanes.now row }
{
    if row == 0 { lanes.height() } else { 1 }
}

/// Returns the bar of an event in this column, if these events follow it.
fn bar_of(lanes: &Lanes, column: usize, event: &Event, later: &[Event]) -> Bar
    ensures { result ≡ bar_of lanes.now column event.now later.now }
{
    let row = lanes.row_of(event);
    Bar {
        class: class_of(event),
        owner: owner_of(event),
        column,
        row,
        columns: width(event, later),
        rows: rows_from(lanes, row),
    }
}

/// Draws a bar for each event of a report. Its title is the event's line.
pub(crate) fn draw_events(
    alloc: Global,
    lanes: &Lanes,
    events: &[Event],
    page: &mut Page,
) -> Result<(), Memory>
    ensures { OnOk result (page.new ≡ page.old ++ flat_map drawn_text (bars_from lanes.now 0 events.now)) }
{
    let mut line = Vec::new(alloc);
    for (column, event) in events.iter().enumerate() {
        let bar = bar_of(lanes, column, event, &events[column + 1..]);
        line.clear();
        append_line(alloc, event, &mut line)?;
        page.draw(&bar, name_in(event, &line), &line)?;
    }
    Ok(())
}

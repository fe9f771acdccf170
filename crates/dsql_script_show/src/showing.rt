ghost use Rattle.std.specs.Prelude.{◌≡◌, ◌<◌, ◌≤◌, ◌+◌, ℕ, List, [], Option, OnOk, OnErr, length, reverse, true};
ghost use Rattle.dsql_script_show.specs.declared.showing.ShowFault.TheVariants as faults;
ghost use Rattle.dsql_history.specs.declared.event.Event.{Event as Happened};
ghost use Rattle.dsql_script_report.specs.Lines.{text_of};
ghost use Rattle.dsql_driver_stream.specs.Faults.{CountsFaults, GivenUp};
ghost use Rattle.dsql_history.specs.Trimmed.{IsLeftOf};
ghost use Rattle.dsql_script_show.specs.Report.{StopsBetween, is_sink_fault, with_text, Shows, oldest};

use dsql_driver_stream::{Cut, write_whole};
use dsql_history::{Event, Memory, Sink};
use dsql_script_report::append_line;
use std::alloc::Global;
use std::marker::Model;
use thiserror::Error;

/// How many events are spelled and written at once.
const AT_ONCE: usize = 32;

/// Why a report wasn't written in full.
#[derive(Clone, Copy, Debug, PartialEq, Eq, Error)]
pub enum ShowFault {
    /// The sink failed.
    #[error("the write failed")]
    Failed,
    /// No memory was left for a line.
    #[error("out of memory")]
    Memory,
}

impl From<Cut> for ShowFault {
    ghost from_gives = { λ _ fault. fault ≡ faults.Failed };

    fn from(_cut: Cut) -> ShowFault {
        ShowFault::Failed
    }
}

impl From<Memory> for ShowFault {
    ghost from_gives = { λ _ fault. fault ≡ faults.Memory };

    fn from(_e: Memory) -> ShowFault {
        ShowFault::Memory
    }
}

/// How many events were shown, and the buffer in which the lines of the next ones are spelled. Contracts see
/// the number.
#[derive(Drop)]
pub struct Shown {
    count: usize,
    lines: Vec<u8>,
}

impl Model for Shown {
    ghost Value = { ℕ };

    ghost view = { λ s. s.count };
}

impl Shown {
    /// Returns a count of no shown event. It takes no memory.
    pub fn none(alloc: Global) -> Shown
        ensures { result ≡ 0 }
    {
        Shown {
            count: 0,
            lines: Vec::new(alloc),
        }
    }
}

/// Replaces what a buffer holds by the lines of events, which are oldest first.
fn spell(alloc: Global, events: &[Event], lines: &mut Vec<u8>) -> Result<(), Memory>
    ensures ok { OnOk result (lines.new.items ≡ text_of (reverse events.now)) }
    ensures err { OnErr result (0 < length events.now) }
{
    lines.clear();
    for event in events {
        append_line(alloc, event, lines)?;
    }
    Ok(())
}

/// Spells the lines of events, which are oldest first, in the buffer and writes them in one piece.
fn show_piece<K: Sink>(
    alloc: Global,
    events: &[Event],
    lines: &mut Vec<u8>,
    output: &mut K,
) -> Result<(), ShowFault>
    ensures ok { OnOk result (K.written output.new ≡ with_text (K.written output.old) (text_of (reverse events.now))) }
    ensures err { OnErr result (StopsBetween (K.written output.old) [] (text_of (reverse events.now))
        (K.written output.new)) }
    ensures faults { CountsFaults (is_sink_fault result) (K.faults output.old) (K.faults output.new) }
    ensures given_up { is_sink_fault result ≡ true → GivenUp K.Sink output.old output.new }
{
    spell(alloc, events, lines)?;
    write_whole(output, lines.as_slice())?;
    Ok(())
}

/// Writes the lines of events, which are oldest first. Spells and writes a few at a time, because spelling an event
/// takes longer in a full buffer.
fn show_events<K: Sink>(
    alloc: Global,
    events: &[Event],
    lines: &mut Vec<u8>,
    output: &mut K,
) -> Result<(), ShowFault>
    ensures ok { OnOk result (K.written output.new ≡ with_text (K.written output.old) (text_of (reverse events.now))) }
    ensures err { OnErr result (StopsBetween (K.written output.old) [] (text_of (reverse events.now))
        (K.written output.new)) }
    ensures faults { CountsFaults (is_sink_fault result) (K.faults output.old) (K.faults output.new) }
    ensures given_up { is_sink_fault result ≡ true → GivenUp K.Sink output.old output.new }
{
    let mut done = 0;
    while done < events.len() {
        let end = events.len().min(done.saturating_add(AT_ONCE));
        show_piece(alloc, &events[done..end], lines, output)?;
        done = end;
    }
    Ok(())
}

/// Writes the lines of a history's events that weren't shown yet, oldest first, and counts these events as
/// shown. Only the events in `kept` are left of the history: the `trimmed` oldest ones were trimmed, and they
/// were shown. A fault leaves the count as it was.
pub fn show<K: Sink>(
    alloc: Global,
    kept: &[Event],
    trimmed: u32,
    shown: &mut Shown,
    output: &mut K,
) -> Result<(), ShowFault>
    requires trimmed { trimmed ≤ shown.old }
    requires within { shown.old ≤ trimmed + length kept.now }
    ensures ok { OnOk result ((past : List Happened) → IsLeftOf past trimmed kept.now → shown.new ≡ length past) }
    ensures err { OnErr result (shown.new ≡ shown.old) }
    ensures within { (past : List Happened) → IsLeftOf past trimmed kept.now → shown.new ≤ length past }
    ensures trimmed { trimmed ≤ shown.new }
    ensures shows { OnOk result ((past : List Happened) → IsLeftOf past trimmed kept.now → (w : Option (List ℕ))
        → Shows w shown.old past (K.written output.old) → K.written output.new ≡ with_text w (text_of past)) }
    ensures stops { OnErr result ((past : List Happened) → IsLeftOf past trimmed kept.now → (w : Option (List ℕ))
        → Shows w shown.old past (K.written output.old)
        → StopsBetween w (text_of (oldest shown.old past)) (text_of past) (K.written output.new)) }
    ensures faults { CountsFaults (is_sink_fault result) (K.faults output.old) (K.faults output.new) }
    ensures given_up { is_sink_fault result ≡ true → GivenUp K.Sink output.old output.new }
{
    let shown_of_kept = shown.count - trimmed as usize;
    show_events(alloc, &kept[shown_of_kept..], &mut shown.lines, output)?;
    shown.count = trimmed as usize + kept.len();
    Ok(())
}

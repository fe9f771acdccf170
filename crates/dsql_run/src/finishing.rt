//! The last part of a run's report.
ghost use Rattle.std.specs.Prelude.{◌≡◌, ◌≤◌, ◌||◌, ℕ, List, Option, true, false, length};
ghost use Rattle.dsql_run_outcome.specs.driver.Streams.{HasRisen, has_risen};
ghost use Rattle.dsql_run_outcome.specs.Runs.{Finishes, Writes, Wrote, is_cut, is_write_fault, later_stop, no_write_failed, ran_out};
ghost use Rattle.dsql_run_outcome.specs.script_report.Lines.{text_of};
ghost use Rattle.dsql_run_outcome.specs.script_show.Report.{Shows, oldest, StopsBetween};

use crate::showing::show_rest;
use dsql_run_outcome::{Player, ShowFault, Shown, Sink, Stop};
use std::alloc::Global;

/// Is true if nothing more may be written, because a write failed or because there was no memory.
fn is_cut(played: &Result<(), Stop>, ended: &Result<(), Stop>) -> bool
    ensures { result ≡ is_cut played.now ended.now }
{
    matches!(played, Err(Stop::Write)) || matches!(ended, Err(Stop::Memory))
}

/// Returns the stop of a run whose last events couldn't be shown.
fn later_stop(ended: &Result<(), Stop>, fault: ShowFault) -> Stop
    ensures { result ≡ later_stop ended.now fault }
{
    match fault {
        ShowFault::Memory => Stop::Memory,
        ShowFault::Failed if matches!(ended, Err(Stop::Full)) => Stop::Full,
        ShowFault::Failed => Stop::Write,
    }
}

/// Writes the events that weren't shown yet, unless an earlier write failed or there was no memory.
pub(crate) fn finish<K: Sink>(
    alloc: Global,
    player: &Player,
    shown: &mut Shown,
    output: &mut K,
    played: Result<(), Stop>,
    ended: Result<(), Stop>,
) -> Result<(), Stop>
    requires trimmed { player.now.trimmed ≤ shown.old }
    requires within { shown.old ≤ length player.now.past }
    requires same { ran_out ended ≡ true → ended ≡ played }
    requires kept { ran_out played ≡ false → ended ≡ played }
    ensures wrote { (w : Option (List ℕ)) → Wrote played w shown.old player.now.past (K.written output.old)
        → Writes result (is_write_fault played
        || has_risen (K.faults output.old) (K.faults output.new)) w player.now.past (K.written output.new) }
    ensures stops { (w : Option (List ℕ)) → Shows w shown.old player.now.past (K.written output.old)
        → is_write_fault played
        ≡ false → result ≡ Err Stop.Write
        → StopsBetween w (text_of (oldest shown.old player.now.past)) (text_of player.now.past)
        (K.written output.new) }
    ensures unwritten { is_write_fault played ≡ true → output.new ≡ output.old }
    ensures result { Finishes ended result }
    ensures caused { result ≡ Err Stop.Write → is_write_fault played ≡ false
        → HasRisen (K.faults output.old) (K.faults output.new) }
    ensures counted { K.faults output.old ≤ K.faults output.new }
    ensures faultless { no_write_failed result ≡ true → K.faults output.new ≡ K.faults output.old }
{
    if is_cut(&played, &ended) {
        return ended;
    }
    match show_rest(alloc, player, shown, output) {
        Ok(()) => ended,
        Err(fault) => Err(later_stop(&ended, fault)),
    }
}

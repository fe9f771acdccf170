//! Writes the events of a run as they happen, and trims them unless they are kept.
ghost use Rattle.std.specs.Prelude.{◌≡◌, ◌<◌, ◌≤◌, ℕ, List, Option, true, false, length, OnOk, OnErr, IfErr};
ghost use Rattle.dsql_run_outcome.specs.history.Legal.{Legal};
ghost use Rattle.dsql_run_outcome.specs.follows.Moments.{Moment};
ghost use Rattle.dsql_run_outcome.specs.Runs.{IsShowStop, is_write_fault};
ghost use Rattle.dsql_run_outcome.specs.player.Playing.{IsAt, IsReady};
ghost use Rattle.dsql_run_outcome.specs.script_report.Lines.{text_of};
ghost use Rattle.dsql_run_outcome.specs.script_show.Report.{Shows, oldest, StopsBetween, is_sink_fault, with_text};
ghost use Rattle.dsql_run_outcome.specs.laws_steps.Groups.{most_events};
ghost use Rattle.dsql_run_outcome.specs.stream.Faults.{CountsFaults};

use dsql_run_outcome::{Player, ShowFault, Shown, Sink, Stop, show, stop_of_show};
use std::alloc::Global;

/// Writes the events of a run that weren't shown yet.
pub(crate) fn show_rest<K: Sink>(
    alloc: Global,
    player: &Player,
    shown: &mut Shown,
    output: &mut K,
) -> Result<(), ShowFault>
    requires trimmed { player.now.trimmed ≤ shown.old }
    requires within { shown.old ≤ length player.now.past }
    ensures ok { OnOk result (shown.new ≡ length player.now.past) }
    ensures within { shown.new ≤ length player.now.past }
    ensures trimmed { player.now.trimmed ≤ shown.new }
    ensures shows { OnOk result ((w : Option (List ℕ)) → Shows w shown.old player.now.past (K.written output.old)
        → K.written output.new ≡ with_text w (text_of player.now.past)) }
    ensures stops { OnErr result ((w : Option (List ℕ)) → Shows w shown.old player.now.past (K.written output.old)
        → StopsBetween w (text_of (oldest shown.old player.now.past)) (text_of player.now.past)
        (K.written output.new)) }
    ensures faults { CountsFaults (is_sink_fault result) (K.faults output.old) (K.faults output.new) }
    ensures legal { Legal player.now.past }
{
    show(alloc, player.history(), player.trimmed(), shown, output)
}

/// Writes the events of a run that weren't shown yet. Returns a fault as what stops the run.
pub(crate) fn show_history<K: Sink>(
    alloc: Global,
    player: &Player,
    shown: &mut Shown,
    output: &mut K,
) -> Result<(), Stop>
    requires trimmed { player.now.trimmed ≤ shown.old }
    requires within { shown.old ≤ length player.now.past }
    ensures ok { OnOk result (shown.new ≡ length player.now.past) }
    ensures within { shown.new ≤ length player.now.past }
    ensures trimmed { player.now.trimmed ≤ shown.new }
    ensures shows { OnOk result ((w : Option (List ℕ)) → Shows w shown.old player.now.past (K.written output.old)
        → K.written output.new ≡ with_text w (text_of player.now.past)) }
    ensures stops { OnErr result ((w : Option (List ℕ)) → Shows w shown.old player.now.past (K.written output.old)
        → StopsBetween w (text_of (oldest shown.old player.now.past)) (text_of player.now.past)
        (K.written output.new)) }
    ensures kinds { IfErr result IsShowStop }
    ensures faults { CountsFaults (is_write_fault result) (K.faults output.old) (K.faults output.new) }
    ensures legal { Legal player.now.past }
{
    match show_rest(alloc, player, shown, output) {
        Ok(()) => Ok(()),
        Err(fault) => Err(stop_of_show(fault)),
    }
}

/// Trims the events of a run, unless they are kept or the run has as many as it may have.
pub(crate) fn trim_shown(player: &mut Player, keeps: bool)
    requires { player.old.trimmed ≤ length player.old.past }
    ensures past { player.new.past ≡ player.old.past }
    ensures seats { player.new.seats ≡ player.old.seats }
    ensures within { player.new.trimmed ≤ length player.new.past }
    ensures kept { keeps ≡ true → player.new.trimmed ≡ player.old.trimmed }
    ensures trimmed { keeps ≡ false → length player.old.past < most_events
        → player.new.trimmed ≡ length player.new.past }
    ensures ready { IsReady player.old → IsReady player.new }
    ensures at { (m : Moment) → IsAt m player.old → IsAt m player.new }
{
    if !keeps {
        player.trim();
    }
}

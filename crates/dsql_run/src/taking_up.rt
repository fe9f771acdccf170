//! Takes up the lines of a race before its clients go on: keeps their calls, plans faults, and collects limits.
ghost use Rattle.std.specs.Prelude.{◌≡◌, ◌≤◌, ◌+◌, ◌∷◌, ◌++◌, ℕ, List, [], Option, true, length, sum_by, take, IfOk, IfErr, OnOk};
ghost use Rattle.std.specs.List.{list_all};
ghost use Rattle.dsql_run_outcome.specs.driver.declared.caps.Caps.{Caps};
ghost use Rattle.dsql_run_outcome.specs.driver.Wires.{FleetTold};
ghost use Rattle.dsql_run_outcome.specs.history.declared.event.Event.TheVariants.{Run};
ghost use Rattle.dsql_run_outcome.specs.follows.Labels.{times_in};
ghost use Rattle.dsql_run_outcome.specs.follows.Moments.{Moment, met};
ghost use Rattle.dsql_run_outcome.specs.hall.Raced.{plans_first};
ghost use Rattle.dsql_run_outcome.specs.hall.hall_steps.Limits.{limit_of, makes_call, settings_first, settings_of};
ghost use Rattle.dsql_run_outcome.specs.player.Naming.{MakeOnce, times};
ghost use Rattle.dsql_run_outcome.specs.player.Playing.{IsAt, IsReady};
ghost use Rattle.dsql_run_outcome.specs.player_wires.Told.{SameAbility, with_told};
ghost use Rattle.dsql_run_outcome.specs.script_source.Racing.{may_race};
ghost use Rattle.dsql_run_outcome.specs.Racing.{met_all};

use dsql_run_outcome::{Control, Fleet, Halt, KeptLine, Line, Memory, Player, needs_time};
use std::alloc::Global;
use std::collections::VecDeque;

/// The limits that the lines of a race set, in the order of the lines. Those before the first line of a client stand
/// apart. Also says whether a line needs the present moment.
#[derive(Drop)]
pub(crate) struct Limits {
    pub first: VecDeque<Control>,
    pub later: VecDeque<Control>,
    pub timed: bool,
}

/// Returns the limits that these lines set.
pub(crate) fn limits_of(alloc: Global, lines: &[Line]) -> Result<Limits, Memory>
    ensures all { IfOk result (λ limits. limits.first.items ++ limits.later.items ≡ settings_of lines.now) }
    ensures first { IfOk result (λ limits. limits.first.items ≡ settings_first lines.now) }
{
    let at = first_call(lines);
    Ok(Limits {
        first: limits_in(alloc, &lines[..at])?,
        later: limits_in(alloc, &lines[at..])?,
        timed: lines.iter().any(|line| needs_time(line)),
    })
}

/// Returns the place of the first line of a client, or the number of lines if there is none.
fn first_call(lines: &[Line]) -> usize
    ensures within { result ≤ length lines.now }
    ensures before { settings_of (take result lines.now) ≡ settings_first lines.now }
{
    for (place, line) in lines.iter().enumerate() {
        if makes_call(line) {
            return place;
        }
    }
    lines.len()
}

/// Is true if the line makes a call of a client.
fn makes_call(line: &Line) -> bool
    ensures { result ≡ makes_call line.now }
{
    matches!(line, Line::Client { .. })
}

/// Returns the limits that these lines set, in one list.
fn limits_in(alloc: Global, lines: &[Line]) -> Result<VecDeque<Control>, Memory>
    ensures { IfOk result (λ limits. limits.items ≡ settings_of lines.now) }
{
    let mut limits = VecDeque::new(alloc);
    for line in lines {
        if let Some(limit) = limit_of(line) {
            limits.push_back(limit)?;
        }
    }
    Ok(limits)
}

/// Returns the limit that a line sets, if it sets one.
fn limit_of(line: &Line) -> Option<Control>
    ensures { result ≡ limit_of line.now }
{
    match line {
        Line::Control(Control::Set(setting, n)) => Some(Control::Set(*setting, *n)),
        _ => None,
    }
}

/// Takes up the lines, the oldest first: keeps each call for its client, and plans each fault with the fleet. No
/// connection is open, so no fault is planned on a wire.
pub(crate) fn take_up<F: Fleet>(
    player: &mut Player,
    lines: Vec<Line>,
    fleet: &mut F,
) -> Result<(), Halt>
    requires ready { IsReady player.old }
    requires unnamed { (label : List ℕ) → times label player.old.past player.old.seats ≡ 0 }
    requires may_race { list_all may_race lines.items ≡ true }
    requires once { (label : List ℕ) → sum_by (times_in label) lines.items ≤ 1 }
    ensures ready { OnOk result (IsReady player.new) }
    ensures at { OnOk result ((m : Moment) → IsAt m player.old → IsAt (met_all lines.items m) player.new) }
    ensures past { player.new.past ≡ player.old.past }
    ensures trimmed { player.new.trimmed ≡ player.old.trimmed }
    ensures told { OnOk result ((caps : Caps) → F.told fleet.new
        ≡ with_told (plans_first lines.items) (F.told fleet.old) (Run 1 caps ∷ [])) }
    ensures memory { IfErr result (λ halt. halt ≡ Halt.Memory) }
    ensures able { SameAbility F.Fleet fleet.old fleet.new }
{
    for line in lines {
        take_line(player, fleet, line)?;
    }
    Ok(())
}

/// Takes up one line.
fn take_line<F: Fleet>(player: &mut Player, fleet: &mut F, line: Line) -> Result<(), Halt>
    requires ready { IsReady player.old }
    requires may_race { may_race line ≡ true }
    requires once { MakeOnce (λ label. times_in label line) player.old.past player.old.seats }
    ensures ready { OnOk result (IsReady player.new) }
    ensures at { OnOk result ((m : Moment) → IsAt m player.old → IsAt (met line m) player.new) }
    ensures past { player.new.past ≡ player.old.past }
    ensures trimmed { player.new.trimmed ≡ player.old.trimmed }
    ensures named { OnOk result ((label : List ℕ) → times label player.new.past player.new.seats
        ≡ times_in label line + times label player.old.past player.old.seats) }
    ensures told { OnOk result ((script : List Line) (first : Option FleetTold) (caps : Caps)
        → F.told fleet.old ≡ with_told (plans_first script) first (Run 1 caps ∷ [])
        → F.told fleet.new ≡ with_told (plans_first (script ++ line ∷ [])) first (Run 1 caps ∷ [])) }
    ensures memory { IfErr result (λ halt. halt ≡ Halt.Memory) }
    ensures able { SameAbility F.Fleet fleet.old fleet.new }
{
    match line {
        Line::Client { client, op } => player.keep(client, KeptLine { op, held: false }),
        Line::Fault { conn, nth, what } => Ok(fleet.plan(conn, nth, what)?),
        Line::Skip | Line::Control(_) => Ok(()),
        Line::Start { .. } | Line::Step { .. } | Line::StepHouse => unreachable!(),
    }
}

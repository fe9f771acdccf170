//! Races on threads: one a client, and the calling one for the house.
ghost use Rattle.std.specs.Prelude.{◌≡◌, ◌≤◌, ◌++◌, ℕ, [], Option, true, false, is_some, reverse, length, Err, OnOk};
ghost use Rattle.dsql_hall_steps.specs.driver.Wires.{FleetTold};
ghost use Rattle.dsql_hall_steps.specs.history.declared.event.Event.TheVariants.{Run};
ghost use Rattle.dsql_hall_steps.specs.history.Legal.{Legal};
ghost use Rattle.dsql_hall_steps.specs.history.Readers.Course.{has_ended};
ghost use Rattle.dsql_hall_steps.specs.history.Readers.Journals.{journal};
ghost use Rattle.dsql_hall_steps.specs.history.Rules.House.{is_quiet};
ghost use Rattle.dsql_hall_steps.specs.laws_ends.Over.{IsOver};
ghost use Rattle.dsql_hall_steps.specs.laws_steps.Groups.{most_events};
ghost use Rattle.dsql_hall_steps.specs.Limits.{SetsFirst, set_in, settings_first, settings_of};
ghost use Rattle.dsql_hall_steps.specs.Racing.{Races, resting};
ghost use Rattle.dsql_hall_steps.specs.player.Playing.{IsAt, IsReady};
ghost use Rattle.dsql_hall_steps.specs.player_wires.Told.{SameAbility, with_told};
ghost use Rattle.dsql_hall.specs.Ends.{EndsRace};
ghost use Rattle.dsql_hall.specs.Fleets.{RecordsOn};
ghost use Rattle.dsql_hall.specs.Raced.{RacesInPart, RacesThrough, plans_first};

use crate::ending::end_race;
use crate::house::House;
use crate::raced::Raced;
use crate::shared::SharedHall;
use crate::threads::run_threads;
use dsql_hall_steps::{Fleet, Hall, Halt, Line, Player, Race, Unnamed, Wires};
use dsql_history::{Clock, Control, Gate, Memory, Past};
use std::alloc::Global;
use std::collections::VecDeque;
use std::marker::Brand;
use std::sync::Wait;
use std::thread::Threads;

/// Races the lines that the player's clients keep, and sets these limits. Those before the first line of a client must
/// be set already. If `timed` is set, also sets the moments that the clock shows. Then ends the run, and gives all
/// wires back to the fleet. `lines` are the lines of the script, newest first, for proofs alone.
pub fn race<F: Fleet, C: Clock, G: Gate, R: Threads + Wait + Sync>(
    rt: &R,
    alloc: Global,
    player: Player,
    lines: Past<Line>,
    settings: VecDeque<Control>,
    fleet: &mut F,
    clock: &mut C,
    timed: bool,
    gate: &G,
) -> Raced
    requires ready { IsReady player }
    requires running { has_ended player.past ≡ false }
    requires unopened { (c : ℕ) → journal player.past c ≡ [] }
    requires whole { player.trimmed ≡ 0 }
    requires at { IsAt (resting (reverse lines.items) player) player }
    requires races { Races (Run 1 (F.ability fleet.old)) (reverse lines.items) player.past }
    requires limits { set_in player.past ++ settings.items ≡ settings_of (reverse lines.items) }
    requires first { SetsFirst (length (settings_first (reverse lines.items))) player.past }
    ensures through { OnOk result.stopped
        (RacesThrough (Run 1 (F.ability fleet.old)) (reverse lines.items) result.player.past) }
    ensures in_part { RacesInPart (Run 1 (F.ability fleet.old)) (reverse lines.items) result.player.past }
    ensures over { OnOk result.stopped (IsOver result.player.past) }
    ensures ended { OnOk result.stopped (has_ended result.player.past ≡ true) }
    ensures quiet { OnOk result.stopped (is_quiet result.player.past ≡ true) }
    ensures told { OnOk result.stopped ((first : Option FleetTold)
        → F.told fleet.old ≡ with_told (plans_first (reverse lines.items)) first player.past
        → F.told fleet.new ≡ with_told (plans_first (reverse lines.items)) first result.player.past) }
    ensures legal { Legal result.player.past }
    ensures full { result.stopped ≡ Err Halt.Full → most_events ≤ length result.player.past }
    ensures trimmed { result.player.trimmed ≡ 0 }
    ensures able { SameAbility F.Fleet fleet.old fleet.new }
{
    let Ok((clients, unnamed)) = prepare(alloc, &player) else {
        return unraced(player);
    };
    run::<Brand, F, C, G, R>(
        rt,
        alloc,
        unnamed,
        player,
        clients.as_slice(),
        &lines,
        settings,
        fleet,
        clock,
        timed,
        gate,
    )
}

/// Returns a race that couldn't begin, because memory was wanting.
fn unraced(player: Player) -> Raced
    ensures player { result.player ≡ player }
    ensures stopped { result.stopped ≡ Err Halt.Memory }
{
    Raced {
        player,
        stopped: Err(Halt::Memory),
    }
}

/// Returns the clients that have a kept line, and a cell of bonds, which has no name yet.
fn prepare(alloc: Global, player: &Player) -> Result<(Vec<u8>, Unnamed), Memory> {
    let clients = clients_with_lines(alloc, player)?;
    let unnamed = Unnamed::new(alloc)?;
    Ok((clients, unnamed))
}

/// Returns the clients that have a kept line, in their order.
fn clients_with_lines(alloc: Global, player: &Player) -> Result<Vec<u8>, Memory> {
    let mut clients = Vec::new(alloc);
    for client in 0..=u8::MAX {
        if player.has_kept(client) {
            clients.push(client)?;
        }
    }
    Ok(clients)
}

/// Races these clients under a name. `lines` are the lines of the script, newest first, for proofs alone.
fn run<K: Race, F: Fleet, C: Clock, G: Gate, R: Threads + Wait + Sync>(
    rt: &R,
    alloc: Global,
    unnamed: Unnamed,
    player: Player,
    clients: &[u8],
    lines: &Past<Line>,
    settings: VecDeque<Control>,
    fleet: &mut F,
    clock: &mut C,
    timed: bool,
    gate: &G,
) -> Raced
    requires cell { unnamed ≡ K.cell }
    requires lines { K.terms.lines ≡ reverse lines.now.items }
    requires made { K.terms.made ≡ plans_first K.terms.lines }
    requires telling { K.terms.telling ≡ is_some (F.told fleet.old) }
    requires ready { IsReady player }
    requires running { has_ended player.past ≡ false }
    requires unopened { (c : ℕ) → journal player.past c ≡ [] }
    requires whole { player.trimmed ≡ 0 }
    requires at { IsAt (resting K.terms.lines player) player }
    requires races { Races K.terms.run K.terms.lines player.past }
    requires limits { set_in player.past ++ settings.items ≡ settings_of K.terms.lines }
    requires first { SetsFirst (length (settings_first K.terms.lines)) player.past }
    ensures ends { EndsRace K.terms.run K.terms.lines result.stopped result.player }
    ensures told { OnOk result.stopped
        (RecordsOn K.terms.made (F.told fleet.old) (F.told fleet.new) player.past result.player.past) }
    ensures able { SameAbility F.Fleet fleet.old fleet.new }
{
    let (cell, keeper) = unnamed.named::<K>();
    let (hall, own) = Hall::open(&cell, keeper, player, Wires::new(alloc), settings);
    let shared = SharedHall::new(cell, hall, clients);
    let House {
        own,
        fleet,
        moments: _,
        over: _,
        cut,
    } = run_threads(rt, alloc, &shared, gate, clients, own, fleet, clock, timed);
    end_race(shared, own, cut, lines, fleet)
}

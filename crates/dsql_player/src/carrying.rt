//! How lines and the script's end are carried out. A history is read newest first.
ghost use Rattle.std.specs.Prelude.{◌≡◌, ℕ, Bool, List, Option, true, false, None};
ghost use Rattle.dsql_engine_laws.specs.driver.declared.wire.Planned.{Planned};
ghost use Rattle.dsql_engine_laws.specs.journal.Readers.{is_empty};
ghost use Rattle.dsql_engine_laws.specs.history.declared.event.Event.{Event};
ghost use Rattle.dsql_engine_laws.specs.history.declared.event.Op.{Op};
ghost use Rattle.dsql_engine_laws.specs.history.declared.event.Control.{Control};
ghost use Rattle.dsql_engine_laws.specs.history.Readers.Calls.{is_busy};
ghost use Rattle.dsql_engine_laws.specs.history.Readers.Clients.{call_of};
ghost use Rattle.dsql_engine_laws.specs.history.Readers.Course.{has_ended};
ghost use Rattle.dsql_engine_laws.specs.history.Rules.Flights.{is_in_flight};
ghost use Rattle.dsql_engine_laws.specs.laws_ends.Over.{may_move, IsOver};
ghost use Rattle.dsql_engine_laws.specs.history.Rules.House.{chore_due};
ghost use Rattle.dsql_engine_laws.specs.history.Legal.{Lawful};
ghost use Rattle.dsql_engine_laws.specs.follows.declared.line.Line.{Line};
ghost use Rattle.dsql_engine_laws.specs.follows.declared.line.Line.TheVariants as lines;
ghost use Rattle.dsql_engine_laws.specs.follows.declared.line.Line.TheVariants.{Client, Fault, Skip, Start, Step, StepHouse};
ghost use Rattle.dsql_engine_laws.specs.follows.Moments.{Moment, at_end};
ghost use Rattle.dsql_engine_laws.specs.follows.Sentences.{runs_on};
ghost use Rattle.dsql_player_wires.specs.Seats.{seat};
ghost use Rattle.dsql_engine_laws.specs.wire.Journaled.{Journaled};
ghost use Rattle.dsql_engine_laws.specs.laws_steps.Steps.{goes_by_itself};
ghost use Rattle.dsql_player_wires.specs.Told.{hears_nothing};
ghost use Rattle.dsql_player_wires.specs.WiresFit.{KeepsFit, KeepsPlans, WiresFit, slot};
ghost use Rattle.dsql_player.specs.Acts.{Begun, ComesToEnd};
ghost use Rattle.dsql_player.specs.Carried.{Carries, CarriesEnd, HearsNothing, StopsInEnd, StopsInLine};
ghost use Rattle.dsql_player.specs.Playing.{IsAt, IsReady, Playing};
ghost use Rattle.dsql_player.specs.Stepping.{Admits, IsAnswerTo, IsChoreOn, IsEnd, IsEntryOf, IsTold, RunsOut, RunsSoFar, TakesStep, goes};

use dsql_engine_laws::Wire;

/// A line that runs on begins with its own step, or with nothing. It is carried out after everything has gone on until
/// nobody may. If the run has to stop before that, what came of the line is a beginning. Its own step comes first, then
/// whole steps, each in its turn.
pub fn a_line_is_carried_out()
    ensures skipped { (m : Moment) (p : Playing) → IsAt m p → Begun m Skip p p }
    ensures planned { (m : Moment) (p : Playing) (conn nth : ℕ) (what : Planned) → IsAt m p
        → Begun m (Fault conn nth what) p p }
    ensures control { (m : Moment) (control : Control) (old mid : Playing) → IsAt m old
        → ((now : Moment) → IsAt now old → TakesStep now old mid (IsTold old.past control))
        → Begun m (lines.Control control) old mid }
    ensures admitted { (m : Moment) (client : ℕ) (op : Op) (old mid : Playing) (entered : Bool) → IsAt m old
        → Admits entered m client (record { op = op; held = false }) old mid
        → Begun m (Client client op) old mid }
    ensures done { (m : Moment) (line : Line) (old mid new : Playing) → Begun m line old mid → runs_on line ≡ true
        → ((now : Moment) → IsAt now mid → RunsOut now mid new) → Carries m line old new }
    ensures stops { (m : Moment) (line : Line) (old mid : Playing) (new : List Event) → Begun m line old mid
        → runs_on line ≡ true → ((now : Moment) → IsAt now mid → RunsSoFar now mid.past new)
        → StopsInLine m line old.past new }
    ensures stops_at_once { (m : Moment) (line : Line) (p : Playing) (new : List Event) → new ≡ p.past → IsAt m p
        → StopsInLine m line p.past new }
{}

/// A call that is held enters, or its line is kept. An entry, an answer or nothing is a single step of a
/// client. The layer's first chore, or nothing, is a single step of the layer.
pub fn a_single_step_is_carried_out()
    ensures started { (m : Moment) (client : ℕ) (op : Op) (old new : Playing) (entered : Bool) → IsAt m old
        → Admits entered m client (record { op = op; held = true }) old new
        → Carries m (Start client op) old new }
    ensures idle { (m : Moment) (p : Playing) (client : ℕ) → Lawful p.past → IsAt m p → is_busy client p.past ≡ false
        → is_empty (seat p.seats client).kept ≡ true → Carries m (Step client) p p }
    ensures enters { (m : Moment) (old new : Playing) (client : ℕ) → Lawful old.past → IsAt m old
        → is_busy client old.past
        ≡ false → ((now : Moment) → IsAt now old → TakesStep now old new (IsEntryOf client))
        → Carries m (Step client) old new }
    ensures answered { (m : Moment) (old new : Playing) (client : ℕ) → Lawful old.past → IsAt m old
        → is_busy client old.past
        ≡ true → is_in_flight (call_of old.past client) old.flights ≡ true
        → ((now : Moment) → IsAt now old → TakesStep now old new (IsAnswerTo (call_of old.past client)))
        → Carries m (Step client) old new }
    ensures blocked { (m : Moment) (p : Playing) (client : ℕ) → Lawful p.past → IsAt m p → is_busy client p.past ≡ true
        → is_in_flight (call_of p.past client) p.flights ≡ false
        → may_move p.past p.flights (call_of p.past client) ≡ false → Carries m (Step client) p p }
    ensures house_idle { (m : Moment) (p : Playing) → IsAt m p → chore_due p.past ≡ None → Carries m StepHouse p p }
    ensures house { (m : Moment) (old new : Playing) → IsAt m old
        → ((now : Moment) → IsAt now old → TakesStep now old new (IsChoreOn (chore_due old.past)))
        → Carries m StepHouse old new }
{}

/// The script's end is carried out after everything has gone on, the run has ended, and everything has gone on
/// again until nobody may. Then the run is over, and no wire is left.
pub fn the_end_is_carried_out<W: Wire>()
    ensures begun { (m : Moment) (old mid : Playing) → IsAt m old → mid.past ≡ old.past → IsAt (at_end m) mid
        → ComesToEnd m old mid }
    ensures on { (m : Moment) (old mid new : Playing) → ComesToEnd m old mid
        → ((now : Moment) → IsAt now mid → RunsOut now mid new) → ComesToEnd m old new }
    ensures ends { (m : Moment) (old mid new : Playing) → IsReady mid → mid.released ≡ true → has_ended mid.past ≡ false
        → chore_due mid.past ≡ None → ((client : ℕ) → goes mid client ≡ false) → ComesToEnd m old mid
        → ((now : Moment) → IsAt now mid → TakesStep now mid new IsEnd) → ComesToEnd m old new }
    ensures stops { (m : Moment) (old mid : Playing) (new : List Event) → ComesToEnd m old mid
        → ((now : Moment) → IsAt now mid → RunsSoFar now mid.past new) → StopsInEnd m old.past new }
    ensures done { (m : Moment) (old new : Playing) → IsReady new → new.released ≡ true → has_ended new.past ≡ true
        → chore_due new.past ≡ None → ((client : ℕ) → goes new client ≡ false) → ComesToEnd m old new
        → CarriesEnd m old.past new.past }
    ensures over { (p : Playing) → IsReady p → p.released ≡ true → has_ended p.past ≡ true → chore_due p.past ≡ None
        → ((client : ℕ) → goes p client ≡ false) → IsOver p.past }
    ensures empty { (telling : Bool) (past : List Event) (slots : List (Option (Journaled W))) → IsOver past
        → WiresFit W.told telling past slots → (c : ℕ) → slot slots c ≡ None }
{}

/// What a call does by itself isn't heard. If nothing is heard, the wires fit as before.
pub fn what_is_not_heard_keeps_the_wires<W: Wire>()
    ensures itself { (n : ℕ) (e : Event) → goes_by_itself n e ≡ true → hears_nothing e ≡ true }
    ensures wires { (old new : List Event) (slots : List (Option (Journaled W))) → HearsNothing old new
        → KeepsFit W.told old new slots slots }
    ensures plans { (old new : List Event) (slots : List (Option (Journaled W))) → HearsNothing old new
        → KeepsPlans W.told old new slots slots }
{}

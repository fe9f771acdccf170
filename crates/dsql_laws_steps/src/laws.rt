//! Laws of consecutive steps. A history is read newest first.
ghost use Rattle.std.specs.Prelude.{◌≡◌, ◌∷◌, ℕ, false, List, ◌==◌, ◌⊎◌, [], ◌++◌, true};
ghost use Rattle.dsql_laws.specs.history.declared.event.Event.{Event};
ghost use Rattle.dsql_laws.specs.history.Readers.Unfinished.{is_unfinished};
ghost use Rattle.dsql_laws_steps.specs.Groups.{gone_on, after_enter, after_heard, after_control, after_end, IsGroup};
ghost use Rattle.dsql_laws.specs.journal.declared.entry.Entry.{Entry};
ghost use Rattle.dsql_laws.specs.history.declared.event.Event.TheVariants.{Entered, Heard, Ended};
ghost use Rattle.dsql_laws.specs.history.declared.event.Op.{Op};
ghost use Rattle.dsql_laws.specs.history.declared.event.Control.{Control};
ghost use Rattle.dsql_laws.specs.history.Readers.Calls.{next_call};
ghost use Rattle.dsql_laws.specs.history.Readers.Controls.{told_after};
ghost use Rattle.dsql_laws.specs.history.Readers.Owed.{owed};
ghost use Rattle.dsql_follows.specs.Moments.{Moment, met, at_end, takes_permit};
ghost use Rattle.dsql_laws_steps.specs.Steps.{IsAtRest, MakesStep, GoesByItself, RestsAlone, IsStep, stepped};
ghost use Rattle.dsql_laws.specs.journal.Readers.{is_empty};
ghost use Rattle.dsql_follows.specs.declared.line.Line.{Line};
ghost use Rattle.dsql_follows.specs.Turns.{comes_in_turn};
ghost use Rattle.dsql_follows.specs.Sentences.{passed, oldest, later, is_whole, may_enter, come_in_turn};
ghost use Rattle.dsql_follows.specs.Follows.{MakesSteps};
ghost use Rattle.dsql_laws_steps.specs.Whole.{Steps};

/// A call that isn't under way doesn't go on.
pub fn nobody_goes_on()
    ensures { (history : List Event) (n : ℕ) → is_unfinished history n ≡ false → gone_on n history ≡ history }
{}

/// A call that enters, an answer, a limit, a moment and the run's end are each one step, together with all that
/// follows from it. The step is of the call that enters or is answered, and otherwise of nobody. For an answer
/// this requires that no other call rests with its connection.
pub fn each_step_is_one()
    ensures enter { (m : Moment) (client : ℕ) (op : Op) → IsAtRest m
        → MakesStep m (Entered client (next_call m.past) op) (next_call m.past) (after_enter m.past client op) }
    ensures heard { (m : Moment) (e : Entry) → IsAtRest m → RestsAlone m.past e
        → MakesStep m (Heard e) e.call_no (after_heard m.past e) }
    ensures control { (m : Moment) (control : Control) → IsAtRest m
        → MakesStep m (told_after m.past control) 0 (after_control m.past control) }
    ensures end { (m : Moment) → IsAtRest m → MakesStep m Ended 0 (after_end m.past) }
{}

/// A call that goes on by itself, and didn't step last, makes one step or no event at all.
pub fn a_call_that_goes_on_makes_one_step()
    ensures { (m : Moment) (n : ℕ) → IsAtRest m → owed m.past ≡ [] → (n == m.stepper) ≡ false
        → (gone_on n m.past ≡ m.past) ⊎ GoesByItself m n (gone_on n m.past) }
{}

/// A step has a first event. After it come only moves of the pool, a wait of its call and its call's reply.
pub fn a_step_is_a_group()
    ensures { (m : Moment) (first : Event) (n : ℕ) (events : List Event) → IsStep m first n events
        → IsGroup first n events }
{}

/// Consecutive steps are a run of whole steps: no step at all is a run, and one more step may follow a run. The
/// moment after a run has its events, and the lines that were read before it.
pub fn steps_add_up()
    ensures none { (m : Moment) → IsAtRest m → is_whole m ≡ true → Steps m [] m }
    ensures more { (m now : Moment) (events : List Event) (first : Event) (n : ℕ) (step : List Event)
        → Steps m events now
        → IsStep now first n step → may_enter now first ≡ true → is_whole (stepped now first n step) ≡ true
        → Steps m (step ++ events) (stepped now first n step) }
    ensures made { (m now : Moment) (events : List Event) → Steps m events now → MakesSteps m events
        × (now.past ≡ events ++ m.past) × (now.lines ≡ m.lines) × (now.released ≡ m.released) }
{}

/// If each step came in its turn, and one more step comes in its turn, then all of them do. No event after the
/// first one of a step begins a step, so the same holds of the steps after the first one.
pub fn steps_come_in_turn()
    ensures more { (m now : Moment) (events : List Event) (first : Event) (n : ℕ) (step : List Event)
        → Steps m events now
        → come_in_turn (passed m events) ≡ true → IsStep now first n step → comes_in_turn now first ≡ true
        → come_in_turn (passed m (step ++ events)) ≡ true }
    ensures first { (m : Moment) (first : Event) (n : ℕ) (events : List Event) → IsStep m first n events
        → come_in_turn (later (passed m events)) ≡ true }
    ensures behind { (m now : Moment) (events : List Event) (first : Event) (n : ℕ) (step : List Event)
        → is_empty events ≡ false → Steps m events now → come_in_turn (later (passed m events)) ≡ true
        → IsStep now first n step → comes_in_turn now first ≡ true
        → come_in_turn (later (passed m (step ++ events))) ≡ true }
{}

/// The first event of a run stays the first as more steps follow.
pub fn the_first_step_stays()
    ensures { (m now : Moment) (events : List Event) (first : Event) (n : ℕ) (step : List Event)
        → is_empty events ≡ false → Steps m events now → IsStep now first n step
        → oldest (passed m (step ++ events)) ≡ oldest (passed m events) }
{}

/// A call that takes its permit leaves the moment at rest and the last step whole. A line that is read does so
/// too, and so does the script's end.
pub fn a_permit_is_taken_at_rest()
    ensures permit { (m : Moment) (n : ℕ) → IsAtRest m → is_whole m ≡ true → IsAtRest (takes_permit n m)
        × (is_whole (takes_permit n m) ≡ true) }
    ensures line { (m : Moment) (line : Line) → IsAtRest m → is_whole m ≡ true → IsAtRest (met line m)
        × (is_whole (met line m) ≡ true) }
    ensures end { (m : Moment) → IsAtRest m → is_whole m ≡ true → IsAtRest (at_end m) × (is_whole (at_end m) ≡ true) }
{}

//! Lines that run on, and the script's end.
ghost use Rattle.std.specs.Prelude.{◌≡◌, ◌++◌, [], ℕ, true, false, List};
ghost use Rattle.dsql_laws_calls.specs.history.declared.event.Event.{Event};
ghost use Rattle.dsql_laws_calls.specs.history.declared.event.Event.TheVariants.{Entered, Ended};
ghost use Rattle.dsql_laws_calls.specs.history.declared.event.Op.{Op};
ghost use Rattle.dsql_laws_calls.specs.history.declared.event.Control.{Control};
ghost use Rattle.dsql_laws_calls.specs.history.Readers.Controls.{told_after};
ghost use Rattle.dsql_laws_calls.specs.history.Readers.Course.{has_ended};
ghost use Rattle.dsql_follows.specs.declared.line.Line.{Line};
ghost use Rattle.dsql_follows.specs.declared.line.Line.TheVariants as lines;
ghost use Rattle.dsql_follows.specs.declared.line.Line.TheVariants.{Client};
ghost use Rattle.dsql_follows.specs.Moments.{Moment, at_end, met};
ghost use Rattle.dsql_follows.specs.Turns.{comes_in_turn, has_run_out};
ghost use Rattle.dsql_follows.specs.Sentences.{come_in_turn, enters_now, has_own_step, is_whole, may_enter, passed, runs_in_turn, runs_on};
ghost use Rattle.dsql_follows.specs.Follows.{FollowsEnd, MakesSteps, ends_in_turn, is_done};
ghost use Rattle.dsql_laws_steps.specs.Steps.{IsAtRest, IsStep, stepped};
ghost use Rattle.dsql_laws_steps.specs.Whole.{Steps};
ghost use Rattle.dsql_laws_lines.specs.Running.{FollowsTo, RunsOn, RunsToEnd};

/// Consecutive runs of whole steps are one run of whole steps. Each step comes in its turn if it did so in its own run.
/// One step is a run too.
pub fn runs_add_up()
    ensures one { (m : Moment) (first : Event) (n : ℕ) (events : List Event) → IsAtRest m → is_whole m ≡ true
        → IsStep m first n events → may_enter m first ≡ true → is_whole (stepped m first n events) ≡ true
        → Steps m events (stepped m first n events) }
    ensures more { (m now later : Moment) (events more : List Event) → Steps m events now → Steps now more later
        → Steps m (more ++ events) later }
    ensures in_turn { (m now later : Moment) (events more : List Event) → Steps m events now → Steps now more later
        → come_in_turn (passed m events) ≡ true → come_in_turn (passed now more) ≡ true
        → come_in_turn (passed m (more ++ events)) ≡ true }
{}

/// A line that runs on begins with its own step if it has one, and with no events otherwise. It goes on by
/// steps that come in their turn.
pub fn a_line_runs_on()
    ensures nothing { (m : Moment) (line : Line) → IsAtRest m → is_whole m ≡ true → runs_on line ≡ true
        → has_own_step m line ≡ false → RunsOn m line [] (met line m) }
    ensures in_steps { (m : Moment) (line : Line) (events : List Event) (now : Moment) → IsAtRest m → is_whole m ≡ true
        → runs_on line ≡ true → has_own_step m line ≡ false → Steps (met line m) events now
        → come_in_turn (passed (met line m) events) ≡ true → RunsOn m line events now }
    ensures enters { (m : Moment) (client : ℕ) (op : Op) (first : Event) (n k : ℕ) (entered : Op) (events : List Event)
        → IsAtRest m → is_whole m ≡ true → enters_now m client ≡ true → first ≡ Entered client k entered
        → IsStep (met (Client client op) m) first n events → may_enter (met (Client client op) m) first ≡ true
        → is_whole (stepped (met (Client client op) m) first n events) ≡ true
        → RunsOn m (Client client op) events (stepped (met (Client client op) m) first n events) }
    ensures controls { (m : Moment) (control : Control) (first : Event) (n : ℕ) (events : List Event) → IsAtRest m
        → is_whole m ≡ true → first ≡ told_after m.past control
        → IsStep (met (lines.Control control) m) first n events
        → is_whole (stepped (met (lines.Control control) m) first n events) ≡ true
        → RunsOn m (lines.Control control) events (stepped (met (lines.Control control) m) first n events) }
    ensures further { (m : Moment) (line : Line) (events more : List Event) (now after : Moment)
        → RunsOn m line events now
        → Steps now more after → come_in_turn (passed now more) ≡ true → RunsOn m line (more ++ events) after }
{}

/// When nobody may go on, the part of a line that ran on follows the line. Before that, its steps are whole and
/// each comes in its turn. This also holds before the first step.
pub fn a_line_has_run_on()
    ensures done { (m : Moment) (line : Line) (events : List Event) (now : Moment) → RunsOn m line events now
        → runs_on line ≡ true → has_run_out now ≡ true → FollowsTo m line events now }
    ensures so_far { (m : Moment) (line : Line) (events : List Event) (now : Moment) → RunsOn m line events now
        → MakesSteps (met line m) events × (runs_in_turn m (record { line = line; events = events }) ≡ true) }
    ensures nothing { (m : Moment) (line : Line) → IsAtRest m → is_whole m ≡ true → MakesSteps (met line m) []
        × (runs_in_turn m (record { line = line; events = [] }) ≡ true) }
{}

/// The script's end begins with no events, and goes on by steps that come in their turn. One of them may be the
/// end of the run.
pub fn the_end_runs_on()
    ensures nothing { (m : Moment) → IsAtRest m → is_whole m ≡ true → RunsToEnd m [] (at_end m) }
    ensures further { (m : Moment) (events more : List Event) (now after : Moment) → RunsToEnd m events now
        → Steps now more after → come_in_turn (passed now more) ≡ true → RunsToEnd m (more ++ events) after }
    ensures ends { (m : Moment) (events : List Event) (now : Moment) (first : Event) (n : ℕ) (step : List Event)
        → RunsToEnd m events now → first ≡ Ended → comes_in_turn now first ≡ true → IsStep now first n step
        → is_whole (stepped now first n step) ≡ true → RunsToEnd m (step ++ events) (stepped now first n step) }
{}

/// When the run has ended, nobody may go on and all is done, the part of the script's end follows the script.
/// Before that, its steps are whole and each comes in its turn.
pub fn the_end_has_run_on()
    ensures done { (m : Moment) (events : List Event) (now : Moment) → RunsToEnd m events now → has_run_out now ≡ true
        → has_ended now.past ≡ true → is_done now ≡ true → FollowsEnd m events }
    ensures so_far { (m : Moment) (events : List Event) (now : Moment) → RunsToEnd m events now
        → MakesSteps (at_end m) events
        × (ends_in_turn m events ≡ true) }
{}

//! Calls that may move, and permits that they take.
ghost use Rattle.std.specs.Prelude.{◌≡◌, ◌==◌, ◌⊎◌, ℕ, true, false, List};
ghost use Rattle.dsql_laws_calls.specs.journal.declared.entry.Entry.{Entry};
ghost use Rattle.dsql_laws_calls.specs.history.declared.event.Event.{Event};
ghost use Rattle.dsql_laws_calls.specs.history.declared.event.Event.TheVariants.{Heard};
ghost use Rattle.dsql_laws_calls.specs.history.Legal.{Lawful};
ghost use Rattle.dsql_laws_calls.specs.history.Rules.Flights.{is_in_flight};
ghost use Rattle.dsql_laws_calls.specs.history.Rules.Settled.{Settled};
ghost use Rattle.dsql_follows.specs.Moments.{Moment, takes_permit};
ghost use Rattle.dsql_follows.specs.Sentences.{is_whole};
ghost use Rattle.dsql_follows.specs.Turns.{can_move};
ghost use Rattle.dsql_laws_steps.specs.Steps.{IsAtRest, IsStep, stepped};
ghost use Rattle.dsql_laws_lines.specs.Waking.{GoesOn, OnlySends};

/// A call that may move and has no driver call in flight didn't step last, since the last step was whole. If it
/// goes on, it only sends, or makes one step by itself.
pub fn a_call_that_may_move_sends_or_goes_on()
    ensures earlier { (m : Moment) (n : ℕ) → is_whole m ≡ true → can_move m n ≡ true → is_in_flight n m.flights ≡ false
        → (n == m.stepper) ≡ false }
    ensures goes { (m : Moment) (n : ℕ) → IsAtRest m → is_whole m ≡ true → Lawful m.past → Settled m.past
        → can_move m n ≡ true → is_in_flight n m.flights ≡ false → OnlySends m.past n ⊎ GoesOn m n }
{}

/// At the end of a step its call has taken its permit, if one is due, so the moment is at rest.
pub fn a_step_ends_at_rest()
    ensures { (m : Moment) (first : Event) (n : ℕ) (events : List Event) → IsAtRest (stepped m first n events) }
{}

/// A call may take its permit just before its answer is heard. The step is then also one from the moment before
/// the call took its permit, and leads to the same moment.
pub fn a_permit_is_taken_on_the_way()
    ensures step { (m : Moment) (n k : ℕ) (first : Event) (e : Entry) (events : List Event) → IsAtRest m
        → is_whole m ≡ true
        → first ≡ Heard e → e.call_no ≡ n → IsStep (takes_permit n m) first k events → IsStep m first k events }
    ensures now { (m : Moment) (n k : ℕ) (first : Event) (e : Entry) (events : List Event) → first ≡ Heard e
        → e.call_no ≡ n
        → stepped (takes_permit n m) first k events ≡ stepped m first k events }
{}

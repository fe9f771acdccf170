//! Lines that hold their call, and lines that ask for a single step.
ghost use Rattle.std.specs.Prelude.{◌≡◌, [], ℕ, true, false, List, Some, None};
ghost use Rattle.dsql_laws_calls.specs.journal.declared.entry.Entry.{Entry};
ghost use Rattle.dsql_laws_calls.specs.journal.Readers.{is_empty};
ghost use Rattle.dsql_laws_calls.specs.history.declared.event.Event.{Event};
ghost use Rattle.dsql_laws_calls.specs.history.declared.event.Event.TheVariants.{Entered, Heard};
ghost use Rattle.dsql_laws_calls.specs.history.declared.event.Op.{Op};
ghost use Rattle.dsql_laws_calls.specs.history.declared.record.Stand.TheVariants.{Sends};
ghost use Rattle.dsql_laws_calls.specs.history.Legal.{Lawful};
ghost use Rattle.dsql_laws_calls.specs.history.Readers.Clients.{call_of, is_free};
ghost use Rattle.dsql_laws_calls.specs.history.Rules.Flights.{is_in_flight};
ghost use Rattle.dsql_laws_calls.specs.history.Rules.Stands.{stand};
ghost use Rattle.dsql_follows.specs.declared.line.Line.TheVariants.{Start, Step, StepHouse};
ghost use Rattle.dsql_follows.specs.Moments.{Moment, kept, met, takes_permit};
ghost use Rattle.dsql_follows.specs.Splits.{is_sending};
ghost use Rattle.dsql_follows.specs.Turns.{can_move, first_chore};
ghost use Rattle.dsql_follows.specs.Sentences.{enters_now, is_whole, may_enter};
ghost use Rattle.dsql_laws_steps.specs.Steps.{IsAtRest, IsStep, goes_by_itself, stepped};
ghost use Rattle.dsql_laws_lines.specs.Running.{FollowsTo};

/// The step in which a held call enters follows the line that holds it. If the line is kept, no events follow
/// it.
pub fn a_held_call_enters_or_is_kept()
    ensures kept { (m : Moment) (client : ℕ) (op : Op) → IsAtRest m → is_whole m ≡ true → enters_now m client ≡ false
        → FollowsTo m (Start client op) [] (met (Start client op) m) }
    ensures enters { (m : Moment) (client : ℕ) (op : Op) (first : Event) (n k : ℕ) (entered : Op) (events : List Event)
        → IsAtRest m → is_whole m ≡ true → enters_now m client ≡ true → first ≡ Entered client k entered
        → IsStep (met (Start client op) m) first n events → may_enter (met (Start client op) m) first ≡ true
        → is_whole (stepped (met (Start client op) m) first n events) ≡ true
        → FollowsTo m (Start client op) events (stepped (met (Start client op) m) first n events) }
{}

/// No call has number 0, so call 0 can't move.
pub fn nobody_moves()
    ensures { (m : Moment) → Lawful m.past → can_move m 0 ≡ false }
{}

/// A single step of a free client enters its first kept line, if it has one.
pub fn a_free_client_steps()
    ensures stays { (m : Moment) (client : ℕ) → IsAtRest m → is_whole m ≡ true → is_free m.past client ≡ true
        → can_move m 0 ≡ false → is_empty (kept m client) ≡ true
        → FollowsTo m (Step client) [] (met (Step client) m) }
    ensures enters { (m : Moment) (client : ℕ) (first : Event) (n k : ℕ) (op : Op) (events : List Event) → IsAtRest m
        → is_whole m ≡ true → is_free m.past client ≡ true → can_move m 0 ≡ false → first ≡ Entered client k op
        → IsStep (met (Step client) m) first n events → may_enter (met (Step client) m) first ≡ true
        → is_whole (stepped (met (Step client) m) first n events) ≡ true
        → FollowsTo m (Step client) events (stepped (met (Step client) m) first n events) }
{}

/// A single step of a client with a call depends on the call. If the call is in flight, its answer is heard.
/// Otherwise, if it may move, it sends, which adds no event, or it goes on by itself. If it may not move, it
/// stays where it is.
pub fn a_call_steps()
    ensures answered { (m : Moment) (client n : ℕ) (first : Event) (e : Entry) (events : List Event) → IsAtRest m
        → is_whole m ≡ true → is_free m.past client ≡ false → n ≡ call_of m.past client
        → is_in_flight n m.flights ≡ true → first ≡ Heard e → e.call_no ≡ n
        → IsStep (met (Step client) m) first n events → is_whole (stepped (met (Step client) m) first n events)
        ≡ true → FollowsTo m (Step client) events (stepped (met (Step client) m) first n events) }
    ensures sends { (m : Moment) (client n c : ℕ) → IsAtRest m → is_whole m ≡ true → is_free m.past client ≡ false
        → n ≡ call_of m.past client → is_in_flight n m.flights ≡ false → can_move m n ≡ true
        → stand m.past n ≡ Some (Sends c) → FollowsTo m (Step client) [] (takes_permit n (met (Step client) m)) }
    ensures goes { (m : Moment) (client n : ℕ) (first : Event) (events : List Event) → IsAtRest m → is_whole m ≡ true
        → is_free m.past client ≡ false → n ≡ call_of m.past client → is_in_flight n m.flights ≡ false
        → can_move m n ≡ true → is_sending (stand m.past n) ≡ false → goes_by_itself n first ≡ true
        → IsStep (met (Step client) m) first n events → is_whole (stepped (met (Step client) m) first n events)
        ≡ true → FollowsTo m (Step client) events (stepped (met (Step client) m) first n events) }
    ensures stays { (m : Moment) (client n : ℕ) → IsAtRest m → is_whole m ≡ true → is_free m.past client ≡ false
        → n ≡ call_of m.past client → is_in_flight n m.flights ≡ false → can_move m n ≡ false
        → FollowsTo m (Step client) [] (met (Step client) m) }
{}

/// A single step of the layer hears the answer to its first own driver call, if it has one to make. Otherwise
/// no events follow.
pub fn the_layer_steps()
    ensures stays { (m : Moment) → IsAtRest m → is_whole m ≡ true → first_chore m ≡ None
        → FollowsTo m StepHouse [] (met StepHouse m) }
    ensures tidies { (m : Moment) (first : Event) (n : ℕ) (e : Entry) (events : List Event) → IsAtRest m
        → is_whole m ≡ true
        → first ≡ Heard e → e.call_no ≡ 0 → first_chore m ≡ Some e.conn
        → IsStep (met StepHouse m) first n events → is_whole (stepped (met StepHouse m) first n events) ≡ true
        → FollowsTo m StepHouse events (stepped (met StepHouse m) first n events) }
{}

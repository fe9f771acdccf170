//! Whose turn it is, and which steps come in their turn.
ghost use Rattle.std.specs.Prelude.{◌≡◌, ◌≢◌, ◌≤◌, ◌<◌, ℕ, true, false, List, [], Some, None};
ghost use Rattle.dsql_laws_calls.specs.journal.declared.entry.Entry.{Entry};
ghost use Rattle.dsql_laws_calls.specs.journal.Readers.{is_empty};
ghost use Rattle.dsql_laws_calls.specs.history.declared.event.Event.{Event};
ghost use Rattle.dsql_laws_calls.specs.history.declared.event.Event.TheVariants.{Entered, Heard, Ended};
ghost use Rattle.dsql_laws_calls.specs.history.declared.event.Op.{Op};
ghost use Rattle.dsql_laws_calls.specs.history.Legal.{Lawful};
ghost use Rattle.dsql_laws_calls.specs.history.Readers.Clients.{call_of, client_of, is_free, made_by};
ghost use Rattle.dsql_laws_calls.specs.history.Readers.Course.{has_ended};
ghost use Rattle.dsql_laws_calls.specs.history.Readers.Unfinished.{is_unfinished, unfinished};
ghost use Rattle.dsql_laws_calls.specs.history.Rules.Flights.{is_in_flight};
ghost use Rattle.dsql_follows.specs.Follows.{is_done};
ghost use Rattle.dsql_follows.specs.Moments.{Moment, kept, stepping};
ghost use Rattle.dsql_follows.specs.Turns.{comes_in_turn, first_chore, has_run_out, is_turn_of, may_go};
ghost use Rattle.dsql_laws_steps.specs.Steps.{IsStep, goes_by_itself};
ghost use Rattle.dsql_laws_lines.specs.Running.{AllMade};

/// A client that isn't free has made a call.
pub fn who_has_a_call_has_made_one()
    ensures { (past : List Event) (client : ℕ) → Lawful past → is_free past client ≡ false → 1 ≤ made_by past client }
{}

/// If there is no chore, it is the turn of the smallest client who may go on. The turn is nobody's exactly if
/// there is no chore and nobody may go on.
pub fn whose_turn_it_is()
    ensures turn { (m : Moment) (client : ℕ) → AllMade m → Lawful m.past → first_chore m ≡ None → may_go m client ≡ true
        → ((smaller : ℕ) → smaller < client → may_go m smaller ≡ false) → is_turn_of m client ≡ true }
    ensures out { (m : Moment) → first_chore m ≡ None → ((client : ℕ) → may_go m client ≡ false)
        → has_run_out m ≡ true }
    ensures chores { (m : Moment) → has_run_out m ≡ true → first_chore m ≡ None }
    ensures nobody { (m : Moment) (client : ℕ) → AllMade m → Lawful m.past → has_run_out m ≡ true
        → may_go m client ≡ false }
{}

/// All is done if each client is free and has no kept line. All is also done if no call is unfinished and the
/// turn is nobody's.
pub fn all_is_done()
    ensures each { (m : Moment) → ((client : ℕ) → is_free m.past client ≡ true)
        → ((client : ℕ) → is_empty (kept m client) ≡ true) → is_done m ≡ true }
    ensures out { (m : Moment) → AllMade m → Lawful m.past → has_run_out m ≡ true → unfinished m.past ≡ []
        → is_done m ≡ true }
{}

/// A step comes in its turn in each of these cases. The layer's first own call is answered. A call is answered,
/// or goes on by itself, in its client's turn. A free client enters a line in its turn. The run ends when the
/// turn is nobody's.
pub fn what_comes_in_turn()
    ensures chore { (m : Moment) (first : Event) (e : Entry) → first ≡ Heard e → e.call_no ≡ 0
        → first_chore m ≡ Some e.conn
        → comes_in_turn m first ≡ true }
    ensures answer { (m : Moment) (first : Event) (e : Entry) → first ≡ Heard e → e.call_no ≢ 0
        → is_turn_of m (client_of m.past e.call_no) ≡ true → is_unfinished m.past e.call_no ≡ true
        → comes_in_turn m first ≡ true }
    ensures entry { (m : Moment) (first : Event) (client n : ℕ) (op : Op) → first ≡ Entered client n op
        → is_turn_of m client ≡ true → is_free m.past client ≡ true → comes_in_turn m first ≡ true }
    ensures itself { (m : Moment) (first : Event) (n : ℕ) → goes_by_itself n first ≡ true → stepping m first ≡ n
        → is_turn_of m (client_of m.past n) ≡ true → is_in_flight n m.flights ≡ false → comes_in_turn m first
        ≡ true }
    ensures end { (m : Moment) (first : Event) → first ≡ Ended → m.released ≡ true → has_ended m.past ≡ false
        → has_run_out m ≡ true → comes_in_turn m first ≡ true }
{}

/// The answer to a client's call, and what the call does by itself, come in the client's turn.
pub fn a_call_comes_in_its_clients_turn()
    ensures answer { (m : Moment) (first : Event) (client : ℕ) (e : Entry) → is_turn_of m client ≡ true
        → is_free m.past client
        ≡ false → first ≡ Heard e → e.call_no ≡ call_of m.past client → comes_in_turn m first ≡ true }
    ensures itself { (m : Moment) (first : Event) (client n : ℕ) (events : List Event) → is_turn_of m client ≡ true
        → is_free m.past client ≡ false → n ≡ call_of m.past client → is_in_flight n m.flights ≡ false
        → goes_by_itself n first ≡ true → IsStep m first n events → comes_in_turn m first ≡ true }
{}

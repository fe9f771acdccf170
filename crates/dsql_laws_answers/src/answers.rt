//! Laws of an answer on a lent connection: what it leaves unchanged for the other calls. A history is read
//! newest first.
ghost use Rattle.std.specs.Prelude.{◌≡◌, ◌≢◌, ◌∷◌, ℕ, true, List, Some, is_some};
ghost use Rattle.dsql_laws_calls.specs.journal.declared.entry.Entry.{Entry};
ghost use Rattle.dsql_laws_calls.specs.journal.declared.entry.Owner.{Owner};
ghost use Rattle.dsql_laws_calls.specs.journal.Kinds.{number_of};
ghost use Rattle.dsql_laws_calls.specs.pool.declared.conn.Place.TheVariants.{Lent};
ghost use Rattle.dsql_laws_calls.specs.history.declared.event.Event.{Event};
ghost use Rattle.dsql_laws_calls.specs.history.declared.event.Event.TheVariants.{Heard};
ghost use Rattle.dsql_laws_calls.specs.history.Readers.Pool.{place};
ghost use Rattle.dsql_laws_calls.specs.history.Readers.Unfinished.{is_unfinished};
ghost use Rattle.dsql_laws_calls.specs.history.Rules.Settled.{calls_stand, calls_stand_but, is_kept, uses_what_is_lent};
ghost use Rattle.dsql_laws_calls.specs.history.Rules.Stands.{stand};
ghost use Rattle.dsql_laws_calls.specs.history.Legal.{Calm, Lawful};

/// After an answer on a lent connection, each call except that of the answer still stands somewhere. The
/// condition is that the history is settled at each event from outside. All lent connections stay in use if
/// that connection does. In any case each other connection that was in use still is.
pub fn an_answer_touches_no_other_call()
    ensures each { (history : List Event) (e : Entry) (t m : ℕ) (owner : Owner) → Lawful (Heard e ∷ history)
        → Calm history
        → place history e.conn ≡ Some (Lent t owner) → calls_stand history ≡ true → is_unfinished history m ≡ true
        → m ≢ e.call_no → is_some (stand (Heard e ∷ history) m) ≡ true }
    ensures others { (history : List Event) (e : Entry) (t : ℕ) (owner : Owner) → Lawful (Heard e ∷ history)
        → Calm history
        → place history e.conn ≡ Some (Lent t owner) → calls_stand history ≡ true
        → calls_stand_but e.call_no (Heard e ∷ history) ≡ true }
    ensures used { (history : List Event) (e : Entry) (t : ℕ) (owner : Owner) → Lawful (Heard e ∷ history)
        → place history e.conn ≡ Some (Lent t owner) → uses_what_is_lent history ≡ true
        → is_kept (Heard e ∷ history) (number_of owner) ≡ true → uses_what_is_lent (Heard e ∷ history) ≡ true }
    ensures beside { (history : List Event) (e : Entry) (t d u : ℕ) (owner beside : Owner) → Lawful (Heard e ∷ history)
        → place history e.conn ≡ Some (Lent t owner) → uses_what_is_lent history ≡ true
        → place history d ≡ Some (Lent u beside) → d ≢ e.conn → is_kept (Heard e ∷ history) (number_of beside)
        ≡ true }
{}

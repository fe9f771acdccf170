//! What an answer to the layer leaves of the calls after the moves that it makes due. The answer says that a
//! connection was opened, couldn't be opened, or was shut. A history is read newest first.
ghost use Rattle.std.specs.Prelude.{◌≡◌, ◌∷◌, ℕ, true, false, List};
ghost use Rattle.dsql_laws_calls.specs.journal.declared.entry.Entry.{Entry};
ghost use Rattle.dsql_laws_calls.specs.pool.Places.{is_lent};
ghost use Rattle.dsql_laws_calls.specs.history.declared.event.Event.{Event};
ghost use Rattle.dsql_laws_calls.specs.history.declared.event.Event.TheVariants.{Heard};
ghost use Rattle.dsql_laws_calls.specs.history.Readers.Owed.{owed};
ghost use Rattle.dsql_laws_calls.specs.history.Readers.Pool.{place};
ghost use Rattle.dsql_laws_calls.specs.history.Rules.Settled.{calls_stand_but, uses_what_is_lent};
ghost use Rattle.dsql_laws_calls.specs.history.Legal.{Lawful};
ghost use Rattle.dsql_laws_calls.specs.laws.OwedMade.{with_moves};

/// An answer on a connection that isn't lent, with the moves that it makes due, leaves each lent connection in
/// use. Each call that stood somewhere still does.
pub fn an_answer_of_the_layer_serves_or_tells()
    ensures used { (history : List Event) (e : Entry) → Lawful (Heard e ∷ history) → is_lent (place history e.conn)
        ≡ false
        → uses_what_is_lent history ≡ true
        → uses_what_is_lent (with_moves (owed (Heard e ∷ history)) (Heard e ∷ history)) ≡ true }
    ensures somewhere { (history : List Event) (e : Entry) (k : ℕ) → Lawful (Heard e ∷ history)
        → is_lent (place history e.conn)
        ≡ false → calls_stand_but k history ≡ true
        → calls_stand_but k (with_moves (owed (Heard e ∷ history)) (Heard e ∷ history)) ≡ true }
{}

//! Laws of a lending: what it changes and leaves unchanged about the calls. A history is read newest first.
ghost use Rattle.std.specs.Prelude.{◌≡◌, ◌≢◌, ◌∷◌, ℕ, true, false, cond, List, Some, is_some};
ghost use Rattle.dsql_laws_calls.specs.journal.declared.entry.Owner.{Owner};
ghost use Rattle.dsql_laws_calls.specs.journal.Kinds.{number_of};
ghost use Rattle.dsql_laws_calls.specs.wait.Requests.{waits};
ghost use Rattle.dsql_laws_calls.specs.pool.declared.conn.Place.TheVariants.{Lent};
ghost use Rattle.dsql_laws_calls.specs.pool.declared.moves.Move.TheVariants.{Lend};
ghost use Rattle.dsql_laws_calls.specs.history.declared.record.Stand.TheVariants.{Replies, Sends, Waits};
ghost use Rattle.dsql_laws_calls.specs.history.declared.event.Event.{Event};
ghost use Rattle.dsql_laws_calls.specs.history.declared.event.Event.TheVariants.{Pool};
ghost use Rattle.dsql_laws_calls.specs.history.Readers.Calls.{rests};
ghost use Rattle.dsql_laws_calls.specs.history.Readers.Pool.{place, pool};
ghost use Rattle.dsql_laws_calls.specs.history.Readers.Unfinished.{is_unfinished};
ghost use Rattle.dsql_laws_calls.specs.history.Rules.Line.{due_for, is_used};
ghost use Rattle.dsql_laws_calls.specs.history.Rules.Settled.{calls_stand, calls_stand_but, is_kept, uses_what_is_lent};
ghost use Rattle.dsql_laws_calls.specs.history.Rules.Stands.{is_own_step, stand};
ghost use Rattle.dsql_laws_calls.specs.history.Legal.{Lawful};

/// A call that is lent a connection has no reply yet. A driver call is due for it there at once, unless it
/// rests with the connection. So the connection is in use, and the call sends or stands where it replies,
/// unless it rests in a step of its own. A call that waits still waits.
///
/// What is due for each other call stays the same, and each other lent connection is in use as before. Each
/// call that stood somewhere still does, and so does the call itself, unless it rests in a step of its own.
pub fn a_lending_touches_no_other_call()
    ensures due { (history : List Event) (c t n : ℕ) (owner : Owner) → Lawful (Pool (Lend c t owner n) ∷ history)
        → is_unfinished history n ≡ true → rests (Pool (Lend c t owner n) ∷ history) n ≡ false
        → is_some (due_for (Pool (Lend c t owner n) ∷ history) n) ≡ true }
    ensures stands { (history : List Event) (c t n : ℕ) (owner : Owner) → Lawful (Pool (Lend c t owner n) ∷ history)
        → (rests (Pool (Lend c t owner n) ∷ history) n ≡ true
        → is_own_step (Pool (Lend c t owner n) ∷ history) n ≡ false)
        → stand (Pool (Lend c t owner n) ∷ history) n
        ≡ Some (cond (is_some (due_for (Pool (Lend c t owner n) ∷ history) n)) (Sends c) Replies) }
    ensures waits { (history : List Event) (c t n m : ℕ) (owner : Owner) → m ≢ n → waits m (pool history).waiting ≡ true
        → stand (Pool (Lend c t owner n) ∷ history) m ≡ Some Waits }
    ensures used { (history : List Event) (c t n : ℕ) (owner : Owner) → Lawful (Pool (Lend c t owner n) ∷ history)
        → is_kept (Pool (Lend c t owner n) ∷ history) n ≡ true }
    ensures unfinished { (history : List Event) (c t n : ℕ) (owner : Owner) → Lawful (Pool (Lend c t owner n) ∷ history)
        → is_unfinished history n ≡ true }
    ensures others { (history : List Event) (c t n m : ℕ) (owner : Owner)
        → Lawful (Pool (Lend c t owner n) ∷ history) → m ≢ n
        → due_for (Pool (Lend c t owner n) ∷ history) m ≡ due_for history m }
    ensures beside { (history : List Event) (c t n d u : ℕ) (owner beside : Owner)
        → Lawful (Pool (Lend c t owner n) ∷ history)
        → place history d ≡ Some (Lent u beside)
        → is_used (Pool (Lend c t owner n) ∷ history) (number_of beside) ≡ is_used history (number_of beside) }
    ensures all { (history : List Event) (c t n : ℕ) (owner : Owner) → Lawful (Pool (Lend c t owner n) ∷ history)
        → uses_what_is_lent history ≡ true → uses_what_is_lent (Pool (Lend c t owner n) ∷ history) ≡ true }
    ensures itself { (history : List Event) (c t n : ℕ) (owner : Owner) → Lawful (Pool (Lend c t owner n) ∷ history)
        → (rests (Pool (Lend c t owner n) ∷ history) n ≡ true
        → is_own_step (Pool (Lend c t owner n) ∷ history) n ≡ false) → calls_stand_but n history ≡ true
        → calls_stand (Pool (Lend c t owner n) ∷ history) ≡ true }
    ensures somewhere { (history : List Event) (c t n k : ℕ) (owner : Owner)
        → Lawful (Pool (Lend c t owner n) ∷ history)
        → (rests (Pool (Lend c t owner n) ∷ history) n ≡ true
        → is_own_step (Pool (Lend c t owner n) ∷ history) n ≡ false) → calls_stand_but k history ≡ true
        → calls_stand_but k (Pool (Lend c t owner n) ∷ history) ≡ true }
{}

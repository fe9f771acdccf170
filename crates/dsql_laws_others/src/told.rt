//! Calls that reply although they have sent nothing. A history is read newest first.
ghost use Rattle.std.specs.Prelude.{◌≡◌, ◌≢◌, ◌∷◌, ℕ, true, is_some, List, Some};
ghost use Rattle.dsql_laws_calls.specs.pool.declared.moves.Move.TheVariants.{Fell};
ghost use Rattle.dsql_laws_calls.specs.pool.Calls.{wants};
ghost use Rattle.dsql_laws_calls.specs.history.declared.record.Stand.TheVariants.{Replies};
ghost use Rattle.dsql_laws_calls.specs.history.declared.event.Event.{Event};
ghost use Rattle.dsql_laws_calls.specs.history.declared.event.Event.TheVariants.{Ended, Entered, Pool};
ghost use Rattle.dsql_laws_calls.specs.history.declared.event.Op.TheVariants.{DbClose};
ghost use Rattle.dsql_laws_calls.specs.history.Readers.Owed.{owed};
ghost use Rattle.dsql_laws_calls.specs.history.Readers.Pool.{pool};
ghost use Rattle.dsql_laws_calls.specs.history.Rules.Settled.{calls_stand};
ghost use Rattle.dsql_laws_calls.specs.history.Rules.Stands.{stand};
ghost use Rattle.dsql_laws_calls.specs.history.Legal.{Lawful};
ghost use Rattle.dsql_laws_calls.specs.laws.OwedMade.{with_moves};
ghost use Rattle.dsql_laws_others.specs.Told.{where_told};

/// A call to which a refused connection falls stands somewhere: where it replies, if others have settled why,
/// and otherwise where it asks again. A call that wants a connection when a call closes the database, or when
/// the run ends, stands where it replies.
pub fn who_is_told_stands_where_it_replies()
    ensures refused { (history : List Event) (c n : ℕ) → Lawful (Pool (Fell c n) ∷ history) → n ≢ 0
        → is_some (stand (Pool (Fell c n) ∷ history) n) ≡ true }
    ensures there { (history : List Event) (c n : ℕ) → Lawful (Pool (Fell c n) ∷ history) → n ≢ 0
        → stand (Pool (Fell c n) ∷ history) n ≡ where_told (Pool (Fell c n) ∷ history) n }
    ensures closed { (history : List Event) (client m n : ℕ) → Lawful (Entered client m DbClose ∷ history) → n ≢ 0
        → wants n (pool history) ≡ true → stand (Entered client m DbClose ∷ history) n ≡ Some Replies }
    ensures ended { (history : List Event) (n : ℕ) → Lawful (Ended ∷ history) → n ≢ 0 → wants n (pool history) ≡ true
        → stand (Ended ∷ history) n ≡ Some Replies }
{}

/// When the run ends, each call without a reply stands somewhere, to reply that the database is closed. It
/// still does after the moves that the end makes due.
pub fn the_end_tells_each_call()
    ensures { (history : List Event) → Lawful (Ended ∷ history)
        → calls_stand (with_moves (owed (Ended ∷ history)) (Ended ∷ history)) ≡ true }
{}

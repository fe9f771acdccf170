//! What the close of the database, by a call or by the end of the run, leaves of the calls. A history is read
//! newest first.
ghost use Rattle.std.specs.Prelude.{◌≡◌, ◌∷◌, ℕ, true, List};
ghost use Rattle.dsql_laws_calls.specs.history.declared.event.Event.{Event};
ghost use Rattle.dsql_laws_calls.specs.history.declared.event.Event.TheVariants.{Ended, Entered};
ghost use Rattle.dsql_laws_calls.specs.history.declared.event.Op.TheVariants.{DbClose};
ghost use Rattle.dsql_laws_calls.specs.history.Readers.Owed.{owed};
ghost use Rattle.dsql_laws_calls.specs.history.Rules.Settled.{calls_stand, calls_stand_but, uses_what_is_lent};
ghost use Rattle.dsql_laws_calls.specs.history.Legal.{Lawful};
ghost use Rattle.dsql_laws_calls.specs.laws.OwedMade.{with_moves};

/// Let each call have stood somewhere before a call that closes the database entered. Each other call stands somewhere
/// after the moves that the entry makes due. Each lent connection stays in use, and so it does when the run ends. Live
/// rows are to be closed, and transactions are to be ended.
pub fn closing_the_database_leaves_each_call_somewhere()
    ensures others { (history : List Event) (client n : ℕ) → Lawful (Entered client n DbClose ∷ history)
        → calls_stand history ≡ true
        → calls_stand_but n (with_moves (owed (Entered client n DbClose ∷ history))
        (Entered client n DbClose ∷ history)) ≡ true }
    ensures used { (history : List Event) (client n : ℕ) → Lawful (Entered client n DbClose ∷ history)
        → uses_what_is_lent history ≡ true
        → uses_what_is_lent (with_moves (owed (Entered client n DbClose ∷ history))
        (Entered client n DbClose ∷ history)) ≡ true }
    ensures ended { (history : List Event) → Lawful (Ended ∷ history) → uses_what_is_lent history ≡ true
        → uses_what_is_lent (with_moves (owed (Ended ∷ history)) (Ended ∷ history)) ≡ true }
{}

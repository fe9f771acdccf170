//! What a call that closes rows on entry leaves of the other calls. A history is read newest first.
ghost use Rattle.std.specs.Prelude.{◌≡◌, ◌∷◌, ℕ, true, List};
ghost use Rattle.dsql_laws_calls.specs.history.declared.event.Event.{Event};
ghost use Rattle.dsql_laws_calls.specs.history.declared.event.Event.TheVariants.{Entered};
ghost use Rattle.dsql_laws_calls.specs.history.declared.event.Op.TheVariants.{RowsClose};
ghost use Rattle.dsql_laws_calls.specs.history.Rules.Settled.{calls_stand, calls_stand_but, uses_what_is_lent};
ghost use Rattle.dsql_laws_calls.specs.history.Legal.{Lawful};

/// If each call stood somewhere before a call that closes rows entered, each other call does so afterwards.
/// Lent connections are in use as before.
pub fn closing_rows_touches_no_other_call()
    ensures others { (history : List Event) (client n : ℕ) (rows : List ℕ)
        → Lawful (Entered client n (RowsClose rows) ∷ history) → calls_stand history ≡ true
        → calls_stand_but n (Entered client n (RowsClose rows) ∷ history) ≡ true }
    ensures used { (history : List Event) (client n : ℕ) (rows : List ℕ)
        → Lawful (Entered client n (RowsClose rows) ∷ history)
        → uses_what_is_lent (Entered client n (RowsClose rows) ∷ history) ≡ uses_what_is_lent history }
{}

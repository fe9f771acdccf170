//! Laws of lent connections and of rows that a call has ended. A history lists its events newest first.
ghost use Rattle.std.specs.Prelude.{◌≡◌, ◌≢◌, ◌∷◌, ℕ, true, false, List, Some, None};
ghost use Rattle.dsql_laws.specs.journal.declared.entry.Owner.{Owner};
ghost use Rattle.dsql_laws.specs.journal.Kinds.{is_house, number_of};
ghost use Rattle.dsql_laws.specs.pool.declared.conn.Place.TheVariants.{Lent};
ghost use Rattle.dsql_laws.specs.history.Readers.HandedOut.{over, rows_by, are_live, ender};
ghost use Rattle.dsql_laws.specs.history.Readers.Works.{asks, owner_of, work};
ghost use Rattle.dsql_laws.specs.history.declared.event.Event.{Event};
ghost use Rattle.dsql_laws.specs.history.Readers.Pool.{place, home};
ghost use Rattle.dsql_laws.specs.history.Rules.Line.{is_used};
ghost use Rattle.dsql_laws.specs.history.Legal.{Allowed, Lawful};

/// A connection is never lent to the layer. Its owner is the call that asked for it, or the transaction that
/// this call begins. The call has a number, asks for a connection of its own, and has no other connection. As
/// long as the connection is in use, it stays lent in its tenure, whatever event comes.
pub fn lendings_of_lawful_histories()
    ensures owner { (history : List Event) (c t : ℕ) (owner : Owner) → Lawful history
        → place history c ≡ Some (Lent t owner)
        → (is_house owner ≡ false) × (owner ≡ owner_of history (number_of owner)) }
    ensures numbered { (history : List Event) (c t : ℕ) (owner : Owner) → Lawful history
        → place history c ≡ Some (Lent t owner)
        → number_of owner ≢ 0 }
    ensures asks { (history : List Event) (c t : ℕ) (owner : Owner) → Lawful history
        → place history c ≡ Some (Lent t owner)
        → asks (work history (number_of owner)) ≡ true }
    ensures home { (history : List Event) (c t : ℕ) (owner : Owner) → Lawful history
        → place history c ≡ Some (Lent t owner)
        → home history (number_of owner) ≡ c }
    ensures stays { (history : List Event) (last : Event) (c t : ℕ) (owner : Owner) → Lawful history
        → Allowed history last
        → place history c ≡ Some (Lent t owner) → is_used history (number_of owner) ≡ true
        → place (last ∷ history) c ≡ Some (Lent t owner) }
{}

/// Rows that a call has ended are over. So no call has ended live rows, or rows that were never made.
pub fn ended_rows()
    ensures ended { (history : List Event) (n : ℕ) → ender history n ≢ 0 → over (rows_by history n) ≡ true }
    ensures live { (history : List Event) (n : ℕ) → are_live history n ≡ true → ender history n ≡ 0 }
    ensures unmade { (history : List Event) (n : ℕ) → rows_by history n ≡ None → ender history n ≡ 0 }
{}

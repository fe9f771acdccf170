//! What holds once the database is closed, and once the run has ended. A history lists its events newest first.
ghost use Rattle.std.specs.Prelude.{◌≡◌, ◌∷◌, [], ℕ, true, false, List, None};
ghost use Rattle.dsql_laws.specs.journal.declared.entry.Entry.{Entry};
ghost use Rattle.dsql_laws.specs.journal.declared.entry.Owner.{Owner};
ghost use Rattle.dsql_laws.specs.pool.Places.{is_for};
ghost use Rattle.dsql_laws.specs.pool.declared.moves.Move.TheVariants.{Lend};
ghost use Rattle.dsql_laws.specs.history.Readers.Pool.{smallest, pool};
ghost use Rattle.dsql_laws.specs.history.declared.event.Event.{Event};
ghost use Rattle.dsql_laws.specs.history.declared.event.Event.TheVariants.{Pool};
ghost use Rattle.dsql_laws.specs.history.Readers.Course.{has_ended};
ghost use Rattle.dsql_laws.specs.history.Readers.HandedOut.{are_live};
ghost use Rattle.dsql_laws.specs.history.Readers.Transactions.{goes_on};
ghost use Rattle.dsql_laws.specs.history.Rules.Line.{due_for, holder, may_come};
ghost use Rattle.dsql_laws.specs.history.Legal.{Allowed, Lawful};

/// Once the database is closed, no call waits, no connection is being opened for a call, and the pool lends
/// none to a call.
pub fn a_closed_database_serves_nobody()
    ensures waits { (history : List Event) → Lawful history → (pool history).closed ≡ true → (pool history).waiting
        ≡ [] }
    ensures opens { (history : List Event) (n : ℕ) → Lawful history → (pool history).closed ≡ true
        → smallest (is_for n) (pool history) ≡ None }
    ensures lends { (history : List Event) (c t n : ℕ) (owner : Owner) → Lawful history
        → Allowed history (Pool (Lend c t owner n)) → (pool history).closed ≡ false }
{}

/// Once the run has ended, the database is closed and no driver call of any call is due. No rows are live and
/// no transaction goes on. An answer that may still come is to a driver call of the layer, which has the turn
/// on each connection.
pub fn the_end_leaves_nothing_due()
    ensures closed { (history : List Event) → has_ended history ≡ true → (pool history).closed ≡ true }
    ensures due { (history : List Event) (n : ℕ) → Lawful history → has_ended history ≡ true
        → due_for history n ≡ None }
    ensures live { (history : List Event) (n : ℕ) → Lawful history → has_ended history ≡ true
        → (are_live history n ≡ false)
        × (goes_on history n ≡ false) }
    ensures layer { (history : List Event) (e : Entry) → Lawful history → has_ended history ≡ true
        → may_come history e ≡ true
        → e.call_no ≡ 0 }
    ensures turn { (history : List Event) (c : ℕ) → Lawful history → has_ended history ≡ true → holder history c ≡ 0 }
{}

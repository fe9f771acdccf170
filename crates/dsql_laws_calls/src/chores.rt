//! Driver calls by which the layer tidies up. A history lists its events newest first.
ghost use Rattle.std.specs.Prelude.{◌≡◌, ℕ, true, List, Some, is_some};
ghost use Rattle.dsql_laws.specs.journal.declared.entry.Entry.{Entry};
ghost use Rattle.dsql_laws.specs.journal.declared.entry.Owner.{Owner};
ghost use Rattle.dsql_laws.specs.journal.Kinds.{number_of};
ghost use Rattle.dsql_laws.specs.pool.declared.conn.Place.TheVariants.{Lent};
ghost use Rattle.dsql_laws.specs.history.Rules.Line.{is_due, holder, may_come, tidying};
ghost use Rattle.dsql_laws.specs.history.declared.event.Event.{Event};
ghost use Rattle.dsql_laws.specs.history.Readers.Course.{has_ended};
ghost use Rattle.dsql_laws.specs.history.Readers.Works.{borrower};
ghost use Rattle.dsql_laws.specs.history.Readers.Calls.{site};
ghost use Rattle.dsql_laws.specs.history.Readers.Pool.{home, place};
ghost use Rattle.dsql_laws.specs.history.Rules.Ending.{ending};
ghost use Rattle.dsql_laws.specs.history.Rules.Sent.{close_due};
ghost use Rattle.dsql_laws.specs.history.Legal.{Lawful};
ghost use Rattle.dsql_laws_calls.specs.Chores.{is_lent_for};

/// If rows are still to be closed, the connection that their query uses is lent to the query's borrower. If a
/// transaction is still to be ended, its connection is lent to it. The same holds for rows and transactions
/// that no call ended and that the layer tidies up. The answer to what the layer sends there may come while no
/// call holds the turn. Once the run has ended, no call holds it.
pub fn the_layer_may_tidy_up()
    ensures rows { (history : List Event) (n : ℕ) → is_some (close_due history n) ≡ true
        → is_lent_for (borrower history n) (place history (site history n)) ≡ true }
    ensures transaction { (history : List Event) (n : ℕ) → is_some (ending history n) ≡ true
        → is_lent_for n (place history (home history n)) ≡ true }
    ensures lent { (history : List Event) (n : ℕ) → Lawful history → is_some (tidying history n) ≡ true
        → is_lent_for (borrower history n) (place history (site history n)) ≡ true }
    ensures comes { (history : List Event) (owner : Owner) (e : Entry) → e.call_no ≡ 0 → place history e.conn
        ≡ Some (Lent e.tenure owner) → holder history e.conn ≡ 0
        → is_due (tidying history (number_of owner)) e.call ≡ true → may_come history e ≡ true }
    ensures ended { (history : List Event) (owner : Owner) (e : Entry) → Lawful history → has_ended history ≡ true
        → e.call_no ≡ 0 → place history e.conn ≡ Some (Lent e.tenure owner)
        → is_due (tidying history (number_of owner)) e.call ≡ true → may_come history e ≡ true }
{}

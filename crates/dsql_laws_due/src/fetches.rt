//! Fetches that have nothing left to do except to reply. A history lists its events newest first.
ghost use Rattle.std.specs.Prelude.{◌≡◌, ℕ, true, false, List, is_some};
ghost use Rattle.dsql_laws_calls.specs.history.declared.event.Event.{Event};
ghost use Rattle.dsql_laws_calls.specs.history.declared.work.Work.TheVariants.{Fetch};
ghost use Rattle.dsql_laws_calls.specs.history.Readers.Calls.{reply_due};
ghost use Rattle.dsql_laws_calls.specs.history.Readers.Unfinished.{is_unfinished};
ghost use Rattle.dsql_laws_calls.specs.history.Readers.Works.{work};
ghost use Rattle.dsql_laws_calls.specs.history.Rules.Line.{due_for};
ghost use Rattle.dsql_laws_calls.specs.history.Legal.{Lawful};

/// An unfinished fetch that has nothing to send has a settled reply. It was settled as the fetch entered, by an answer,
/// or because the rows are over. From live rows a fetch sends a Next, on the connection that is lent to their query or
/// to that query's transaction.
pub fn a_fetch_that_sends_nothing_replies()
    ensures { (history : List Event) (n k : ℕ) → Lawful history → is_unfinished history n ≡ true
        → work history n ≡ Fetch k → is_some (due_for history n) ≡ false → is_some (reply_due history n) ≡ true }
{}

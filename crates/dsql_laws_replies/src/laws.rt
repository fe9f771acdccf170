//! Laws of calls that have nothing left to do except to reply. A history lists its events newest first.
ghost use Rattle.std.specs.Prelude.{◌≡◌, ℕ, true, false, List, is_some};
ghost use Rattle.dsql_laws_calls.specs.pool.Calls.{wants};
ghost use Rattle.dsql_laws_calls.specs.history.Readers.Tries.{was_served, tries};
ghost use Rattle.dsql_laws_calls.specs.history.declared.event.Event.{Event};
ghost use Rattle.dsql_laws_calls.specs.history.declared.work.Scope.TheVariants.{Held};
ghost use Rattle.dsql_laws_calls.specs.history.declared.work.Work.TheVariants.{End, Fetch};
ghost use Rattle.dsql_laws_calls.specs.history.Readers.Calls.{reply_due};
ghost use Rattle.dsql_laws_calls.specs.history.Readers.HandedOut.{are_live};
ghost use Rattle.dsql_laws_calls.specs.history.Readers.Pool.{pool};
ghost use Rattle.dsql_laws_calls.specs.history.Readers.Unfinished.{is_unfinished};
ghost use Rattle.dsql_laws_calls.specs.history.Readers.Works.{scope, work};
ghost use Rattle.dsql_laws_calls.specs.history.Rules.Asking.{may_ask};
ghost use Rattle.dsql_laws_calls.specs.history.Rules.Line.{due_for};
ghost use Rattle.dsql_laws_calls.specs.history.Rules.Settled.{uses_what_is_lent};
ghost use Rattle.dsql_laws_calls.specs.history.Legal.{Lawful};

/// An unfinished call that was lent a connection, and has nothing more to send there, has a settled reply. An answer
/// settled it, or, for a ping that sends nothing, the lending did. So has a call in a transaction that has nothing to
/// send. An answer settled its reply, or it was settled as the call entered or as its transaction ended. So has a
/// commit or a rollback that has nothing to send: its reply was settled as it entered, or by its answer. So has a fetch
/// from rows that aren't live.
///
/// Let every lent connection be in use. A call has a settled reply if it has nothing to send, wants no connection and
/// may not ask for one. This holds whatever its work is, unless it fetches from live rows.
pub fn who_is_nowhere_replies()
    ensures served { (history : List Event) (n : ℕ) → Lawful history → is_unfinished history n ≡ true
        → was_served (tries history n) ≡ true → is_some (due_for history n) ≡ false
        → is_some (reply_due history n) ≡ true }
    ensures inside { (history : List Event) (n k : ℕ) → Lawful history → is_unfinished history n ≡ true
        → scope (work history n)
        ≡ Held k → is_some (due_for history n) ≡ false → is_some (reply_due history n) ≡ true }
    ensures ends { (history : List Event) (n k : ℕ) → Lawful history → is_unfinished history n ≡ true
        → work history n ≡ End k
        → is_some (due_for history n) ≡ false → is_some (reply_due history n) ≡ true }
    ensures fetches { (history : List Event) (n k : ℕ) → Lawful history → is_unfinished history n ≡ true
        → work history n ≡ Fetch k → are_live history k ≡ false → is_some (reply_due history n) ≡ true }
    ensures nowhere { (history : List Event) (n : ℕ) → Lawful history → is_unfinished history n ≡ true
        → is_some (due_for history n) ≡ false → wants n (pool history) ≡ false → uses_what_is_lent history
        ≡ true → may_ask history n ≡ false → ((k : ℕ) → work history n ≡ Fetch k → are_live history k ≡ false)
        → is_some (reply_due history n) ≡ true }
{}

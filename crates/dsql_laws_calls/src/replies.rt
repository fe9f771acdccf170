//! Which calls have a settled reply, and which have a try left. A history lists its events newest first.
ghost use Rattle.std.specs.Prelude.{◌≡◌, ◌≢◌, ◌∷◌, ℕ, true, false, List, None, is_some, length};
ghost use Rattle.dsql_laws.specs.driver.declared.answer.DriverAnswer.{DriverAnswer};
ghost use Rattle.dsql_laws.specs.pool.Calls.{wants};
ghost use Rattle.dsql_laws.specs.history.declared.record.Try.{Try};
ghost use Rattle.dsql_laws.specs.history.declared.record.Try.TheVariants.{Refused};
ghost use Rattle.dsql_laws.specs.history.Readers.HandedOut.{over, ender, rows_by};
ghost use Rattle.dsql_laws.specs.history.Readers.Tries.{has_a_try, was_served, tries_again, tries};
ghost use Rattle.dsql_laws.specs.history.Readers.Works.{asks, work};
ghost use Rattle.dsql_laws.specs.history.declared.work.Work.TheVariants.{Close, Look};
ghost use Rattle.dsql_laws.specs.history.declared.event.Event.{Event};
ghost use Rattle.dsql_laws.specs.history.Readers.Calls.{decided, reply_due};
ghost use Rattle.dsql_laws.specs.history.Readers.Decisions.{reply_to};
ghost use Rattle.dsql_laws.specs.history.Readers.Pool.{pool};
ghost use Rattle.dsql_laws.specs.history.Readers.Unfinished.{is_unfinished};
ghost use Rattle.dsql_laws.specs.history.Rules.Asking.{may_ask};
ghost use Rattle.dsql_laws.specs.history.Legal.{Lawful};
ghost use Rattle.dsql_laws_calls.specs.Nothing.{HasNothing, is_elsewhere};

/// An unfinished call that looks at what is there settled its reply as it entered. The reply of a close is
/// always settled. A refusal that fell to a call in its last try gives the call its reply. So an unfinished
/// call has a settled reply if it may not ask, has nothing and wasn't served. The exceptions are a call that
/// fetches a row, one that ends a transaction, and one whose statement runs in a transaction.
pub fn who_sends_nothing_replies()
    ensures looks { (history : List Event) (n : ℕ) → Lawful history → is_unfinished history n ≡ true
        → work history n ≡ Look
        → is_some (decided history n) ≡ true }
    ensures closes { (history : List Event) (n k : ℕ) → work history n ≡ Close k → is_some (reply_due history n)
        ≡ true }
    ensures refused { (history : List Event) (n : ℕ) (answer : DriverAnswer) (earlier : List Try) → Lawful history
        → tries history n ≡ Refused answer ∷ earlier → has_a_try (Refused answer ∷ earlier) ≡ false
        → is_some (reply_to (tries_again (work history n) (length (Refused answer ∷ earlier)))
        (length (Refused answer ∷ earlier)) answer) ≡ true }
    ensures unserved { (history : List Event) (n : ℕ) → Lawful history → is_unfinished history n ≡ true
        → (asks (work history n) ≡ true → HasNothing history n) → may_ask history n ≡ false
        → was_served (tries history n) ≡ false → is_elsewhere (work history n) ≡ false
        → is_some (reply_due history n) ≡ true }
{}

/// A call that wants a connection has a try left, and has settled nothing itself. Rows that nothing has ended
/// were ended by no call.
pub fn what_has_not_come_yet()
    ensures tries { (history : List Event) (n : ℕ) → Lawful history → n ≢ 0 → wants n (pool history) ≡ true
        → has_a_try (tries history n) ≡ true }
    ensures undecided { (history : List Event) (n : ℕ) → Lawful history → n ≢ 0 → wants n (pool history) ≡ true
        → decided history n ≡ None }
    ensures ender { (history : List Event) (n : ℕ) → over (rows_by history n) ≡ false → ender history n ≡ 0 }
{}

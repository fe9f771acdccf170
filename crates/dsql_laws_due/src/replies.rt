//! Calls that have nothing left to do except to reply. A history lists its events newest first.
ghost use Rattle.std.specs.Prelude.{◌≡◌, ℕ, true, false, List, is_some};
ghost use Rattle.dsql_laws_calls.specs.pool.Calls.{wants};
ghost use Rattle.dsql_laws_calls.specs.history.declared.event.Event.{Event};
ghost use Rattle.dsql_laws_calls.specs.history.Readers.Calls.{reply_due};
ghost use Rattle.dsql_laws_calls.specs.history.Readers.Pool.{pool};
ghost use Rattle.dsql_laws_calls.specs.history.Readers.Unfinished.{is_unfinished};
ghost use Rattle.dsql_laws_calls.specs.history.Rules.Asking.{may_ask};
ghost use Rattle.dsql_laws_calls.specs.history.Rules.Line.{due_for};
ghost use Rattle.dsql_laws_calls.specs.history.Rules.Settled.{uses_what_is_lent};
ghost use Rattle.dsql_laws_calls.specs.history.Legal.{Lawful};

/// Let every lent connection be in use. An unfinished call has a settled reply if it has nothing to send, wants no
/// connection and may not ask for one. This holds whatever its work is.
pub fn who_has_nothing_to_do_replies()
    ensures { (history : List Event) (n : ℕ) → Lawful history → is_unfinished history n ≡ true
        → is_some (due_for history n) ≡ false → wants n (pool history) ≡ false → uses_what_is_lent history
        ≡ true → may_ask history n ≡ false → is_some (reply_due history n) ≡ true }
{}

//! Laws of a call that asks for a connection: what it leaves unchanged about the calls. A history is read
//! newest first.
ghost use Rattle.std.specs.Prelude.{◌≡◌, [], ℕ, true, false, List};
ghost use Rattle.dsql_laws_calls.specs.history.declared.event.Event.{Event};
ghost use Rattle.dsql_laws_calls.specs.history.Readers.Calls.{rests};
ghost use Rattle.dsql_laws_calls.specs.history.Readers.Owed.{owed};
ghost use Rattle.dsql_laws_calls.specs.history.Rules.Asking.{ask_outcome, is_too_many, may_ask};
ghost use Rattle.dsql_laws_calls.specs.history.Rules.Settled.{calls_stand, is_settled_but, uses_what_is_lent};
ghost use Rattle.dsql_laws_calls.specs.history.Legal.{Lawful};
ghost use Rattle.dsql_laws_calls.specs.laws.Asked.{with_asked};

/// If a call may ask and all else is settled, each call stands somewhere after it has asked. Two cases are left
/// out: too many connections are open, and the call rests with what it was lent. Each lent connection stays in
/// use.
pub fn who_asks_goes_on()
    ensures somewhere { (history : List Event) (n : ℕ) → Lawful history → owed history ≡ [] → may_ask history n ≡ true
        → is_settled_but n history ≡ true → is_too_many (ask_outcome history n) ≡ false
        → rests (with_asked n (ask_outcome history n) history) n ≡ false
        → calls_stand (with_asked n (ask_outcome history n) history) ≡ true }
    ensures used { (history : List Event) (n : ℕ) → Lawful history → owed history ≡ [] → may_ask history n ≡ true
        → is_settled_but n history ≡ true → uses_what_is_lent (with_asked n (ask_outcome history n) history)
        ≡ true }
{}

//! What a connection that is given back leaves of the calls, with the moves that follow. A history is read
//! newest first.
ghost use Rattle.std.specs.Prelude.{◌≡◌, ℕ, true, false, is_some, List, Some};
ghost use Rattle.dsql_laws_calls.specs.journal.declared.entry.Owner.{Owner};
ghost use Rattle.dsql_laws_calls.specs.journal.Kinds.{number_of};
ghost use Rattle.dsql_laws_calls.specs.pool.declared.conn.Place.TheVariants.{Lent};
ghost use Rattle.dsql_laws_calls.specs.pool.declared.moves.Fate.TheVariants.{Good};
ghost use Rattle.dsql_laws_calls.specs.history.declared.event.Event.{Event};
ghost use Rattle.dsql_laws_calls.specs.history.Readers.Calls.{rests, rests_with};
ghost use Rattle.dsql_laws_calls.specs.history.Readers.Owed.{fate, given_back};
ghost use Rattle.dsql_laws_calls.specs.history.Readers.Pool.{place};
ghost use Rattle.dsql_laws_calls.specs.history.Readers.Unfinished.{is_unfinished};
ghost use Rattle.dsql_laws_calls.specs.history.Rules.Line.{due_for};
ghost use Rattle.dsql_laws_calls.specs.history.Rules.Settled.{calls_stand_but, is_settled_but, uses_what_is_lent};
ghost use Rattle.dsql_laws_calls.specs.history.Legal.{Lawful};
ghost use Rattle.dsql_laws_calls.specs.laws.Leaving.{MayLeave};
ghost use Rattle.dsql_laws_calls.specs.laws.OwedMade.{with_moves};
ghost use Rattle.dsql_laws_others.specs.Beside.{UsedBeside};
ghost use Rattle.dsql_laws_others.specs.GivenUp.{MayGiveUp};

/// One lent connection may leave its call or its transaction, and each other lent connection is in use. After
/// that one is given back, all that is lent is in use. Each call that stood somewhere still does, except a call
/// that rested with the connection.
pub fn what_leaves_touches_no_call()
    ensures used { (history : List Event) (conn : ℕ) → Lawful history → MayLeave history conn → UsedBeside history conn
        → uses_what_is_lent (with_moves (given_back history conn) history) ≡ true }
    ensures somewhere { (history : List Event) (conn k : ℕ) (may : MayLeave history conn) → Lawful history
        → (rests history (number_of may.owner) ≡ true → k ≡ number_of may.owner) → calls_stand_but k history ≡ true
        → calls_stand_but k (with_moves (given_back history conn) history) ≡ true }
{}

/// A connection with which a call rests is good: nothing heard there makes it bad.
pub fn who_rests_has_a_good_connection()
    ensures { (history : List Event) (conn tenure : ℕ) (owner : Owner) → Lawful history
        → place history conn ≡ Some (Lent tenure owner) → rests history (number_of owner) ≡ true
        → fate history conn ≡ Good }
{}

/// A call without a reply may give back its connection if it rests there, has nothing to send, and all else is settled.
pub fn who_rests_may_give_up()
    ensures { (history : List Event) (n conn : ℕ) → Lawful history → is_settled_but n history ≡ true
        → is_unfinished history n ≡ true → is_some (due_for history n) ≡ false → rests_with history n
        ≡ Some conn → MayGiveUp history n conn }
{}

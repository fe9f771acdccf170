//! Laws of a call's tenure on a connection that was quiet before. Each is the contract of a function that does
//! nothing.
ghost use Rattle.std.specs.Prelude.{◌≡◌, ◌==◌, ◌&&◌, ℕ, Bool, true, false, List, ◌∷◌, ◌++◌, None};
ghost use Rattle.std.specs.List.{list_all};
ghost use Rattle.dsql_history.specs.course.declared.course.Wish.{Wish};
ghost use Rattle.dsql_history.specs.driver.declared.caps.Caps.{Caps};
ghost use Rattle.dsql_history.specs.journal.HandlesAndCursors.{fits_at_its_place};
ghost use Rattle.dsql_history.specs.journal.Journal.{may_follow};
ghost use Rattle.dsql_history.specs.journal.Kinds.{same_owner};
ghost use Rattle.dsql_history.specs.journal.Readers.{cursors, handles, of_tenure, went_bad};
ghost use Rattle.dsql_history.specs.journal.Tenure.{is_whole_tenure};
ghost use Rattle.dsql_history.specs.journal.declared.entry.Entry.{Entry};
ghost use Rattle.dsql_history.specs.journal.declared.entry.Owner.TheVariants.{Call};
ghost use Rattle.dsql_laws_tenures.specs.Calls.{ClosesOpenRows, HasOwnCursor, IsLentToCall, IsOfCall, WasDue};
ghost use Rattle.dsql_laws_tenures.specs.Connections.{IsAlone, IsQuiet};
ghost use Rattle.dsql_history.specs.works.Exchanges.{exchanges};
ghost use Rattle.dsql_history.specs.works.Journals.{ends_invalid};
ghost use Rattle.dsql_history.specs.works.Line.{Asked, line_after};

/// What a call sends next may follow, with each answer that fits there.
pub fn what_a_call_sends_may_follow()
    ensures { (can : Caps) (reset_due : Bool) (asked : Asked) (c t n : ℕ) (heard before : List Entry) (e : Entry)
        → IsLentToCall can reset_due asked c t n heard before → IsOfCall c t n e
        → WasDue can reset_due asked e heard → fits_at_its_place (heard ++ before) e ≡ true
        → may_follow (heard ++ before) e ≡ true }
{}

/// While the call sends on, the connection stays lent to it, and its tenure has the connection alone. What was
/// heard for the call is the whole content of its tenure.
pub fn what_a_call_sends_keeps_its_tenure()
    ensures sent { (can : Caps) (reset_due : Bool) (asked : Asked) (c t n : ℕ) (heard before : List Entry) (e : Entry)
        → IsLentToCall can reset_due asked c t n heard before → IsOfCall c t n e
        → WasDue can reset_due asked e heard → may_follow (heard ++ before) e ≡ true
        → IsLentToCall can reset_due asked c t n (e ∷ heard) before }
    ensures alone { (can : Caps) (reset_due : Bool) (asked : Asked) (c t n : ℕ) (heard before : List Entry)
        → IsLentToCall can reset_due asked c t n heard before → IsAlone c t (heard ++ before) }
    ensures tenure { (can : Caps) (reset_due : Bool) (asked : Asked) (c t n : ℕ) (heard before : List Entry)
        → IsLentToCall can reset_due asked c t n heard before → of_tenure t (heard ++ before) ≡ heard }
{}

/// A call that has nothing more to send and keeps no rows open leaves a whole tenure. It also leaves a quiet
/// connection, if no answer was Bad and the newest entry isn't a test that failed.
pub fn a_call_leaves_a_whole_tenure()
    ensures whole { (can : Caps) (reset_due : Bool) (asked : Asked) (wish : Wish) (c t n : ℕ)
        (heard before : List Entry)
        → IsLentToCall can reset_due asked c t n heard before → line_after can reset_due asked wish heard
        ≡ None → ClosesOpenRows asked.aim wish (exchanges heard) → is_whole_tenure t (heard ++ before) ≡ true }
    ensures quiet { (can : Caps) (reset_due : Bool) (asked : Asked) (wish : Wish) (c t n : ℕ)
        (heard before : List Entry)
        → IsLentToCall can reset_due asked c t n heard before → line_after can reset_due asked wish heard
        ≡ None → ClosesOpenRows asked.aim wish (exchanges heard) → went_bad (heard ++ before) ≡ false
        → ends_invalid (heard ++ before) ≡ false → IsQuiet c (heard ++ before) }
{}

/// What is live in a call's tenure is the call's own. If no answer was Bad, at most one cursor is live, and it
/// is that of the call's line. All live handles are the call's.
pub fn what_is_live_is_the_calls_own()
    ensures cursor { (can : Caps) (reset_due : Bool) (asked : Asked) (c t n : ℕ) (heard before : List Entry)
        → IsLentToCall can reset_due asked c t n heard before → went_bad (heard ++ before) ≡ false
        → HasOwnCursor t (exchanges heard) (cursors (heard ++ before)) }
    ensures handles { (can : Caps) (reset_due : Bool) (asked : Asked) (c t n : ℕ) (heard before : List Entry)
        → IsLentToCall can reset_due asked c t n heard before
        → list_all (λ x. (x.tenure == t) && same_owner x.owner (Call n)) (handles (heard ++ before)) ≡ true }
{}

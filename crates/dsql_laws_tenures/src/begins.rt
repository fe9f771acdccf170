//! Laws of how a transaction's tenure begins and of the test at its end. Each is the contract of a function
//! that does nothing.
ghost use Rattle.std.specs.Prelude.{◌≡◌, ◌==◌, ℕ, Bool, true, false, List, ◌∷◌};
ghost use Rattle.std.specs.List.{list_all};
ghost use Rattle.dsql_history.specs.driver.Kinds.{is_ending};
ghost use Rattle.dsql_history.specs.driver.declared.call.DriverCall.{DriverCall};
ghost use Rattle.dsql_history.specs.driver.declared.caps.Caps.{Caps};
ghost use Rattle.dsql_history.specs.journal.HandlesAndCursors.{fits_at_its_place};
ghost use Rattle.dsql_history.specs.journal.Journal.{is_last_tenure_whole, may_follow};
ghost use Rattle.dsql_history.specs.journal.Readers.{begins, of_tenure, went_bad};
ghost use Rattle.dsql_history.specs.journal.Tenure.{is_whole_tenure};
ghost use Rattle.dsql_history.specs.journal.declared.entry.Entry.{Entry};
ghost use Rattle.dsql_history.specs.Readers.Lines.{has_cursor, has_handle, line_among};
ghost use Rattle.dsql_history.specs.Rules.Line.{is_due};
ghost use Rattle.dsql_history.specs.Rules.Sent.{begin_line};
ghost use Rattle.dsql_laws_tenures.specs.Begins.{HasEnded, IsLentTo, IsOfBegin, IsTestOf};
ghost use Rattle.dsql_laws_tenures.specs.Orderly.{OpensOnce, PreparesOnce};
ghost use Rattle.dsql_laws_tenures.specs.Tenures.{made_by, GoesOn, IsIn};

/// Until its Begin is done, a transaction leaves its tenure whole. This includes a Begin that was refused, and
/// a Reset that led nowhere.
pub fn a_refused_begin_leaves_a_whole_tenure()
    ensures its_own { (can : Caps) (reset_due : Bool) (begin : DriverCall) (c k t : ℕ) (J : List Entry)
        → IsLentTo can reset_due begin c k t J → is_whole_tenure t J ≡ true }
    ensures last { (can : Caps) (reset_due : Bool) (begin : DriverCall) (c k t : ℕ) (J : List Entry)
        → IsLentTo can reset_due begin c k t J → is_last_tenure_whole J ≡ true }
{}

/// What a begin sends next may follow, with each answer that fits there: its Reset, its Begin, and the test if
/// that Begin failed.
pub fn what_a_begin_sends_may_follow()
    ensures { (can : Caps) (reset_due : Bool) (begin : DriverCall) (c k t : ℕ) (J : List Entry) (e : Entry)
        → IsLentTo can reset_due begin c k t J → IsOfBegin c k t e
        → is_due (begin_line can reset_due begin (of_tenure t J)) e.call ≡ true → fits_at_its_place J e ≡ true
        → may_follow J e ≡ true }
{}

/// After the Commit or Rollback, the test may follow if no line has a cursor or a handle.
pub fn the_test_after_the_end_may_follow()
    ensures { (c k t : ℕ) (J : List Entry) (e : Entry) → HasEnded c k t J → IsTestOf c k t e → OpensOnce t J
        → PreparesOnce t J → ((n rows : ℕ) → has_cursor (made_by n t J) rows ≡ false)
        → ((n handle : ℕ) → has_handle (made_by n t J) handle ≡ false) → fits_at_its_place J e ≡ true
        → may_follow J e ≡ true }
{}

/// While its begin sends on, the tenure stays lent to the transaction until the Begin is done; then the
/// transaction goes on. If all that was heard is of one call, that is the call's line.
pub fn what_a_begin_sends_keeps_its_tenure()
    ensures sent { (can : Caps) (reset_due : Bool) (begin : DriverCall) (c k t : ℕ) (J : List Entry) (e : Entry)
        → IsLentTo can reset_due begin c k t J → IsOfBegin c k t e
        → is_due (begin_line can reset_due begin (of_tenure t J)) e.call ≡ true → fits_at_its_place J e ≡ true
        → begins e ≡ false → IsLentTo can reset_due begin c k t (e ∷ J) }
    ensures begun { (can : Caps) (reset_due : Bool) (begin : DriverCall) (c k t : ℕ) (J : List Entry) (e : Entry)
        → IsLentTo can reset_due begin c k t J → IsOfBegin c k t e
        → is_due (begin_line can reset_due begin (of_tenure t J)) e.call ≡ true → fits_at_its_place J e ≡ true
        → begins e ≡ true → GoesOn c k t (e ∷ J) }
    ensures line { (n : ℕ) (heard : List Entry) → list_all (λ x. x.call_no == n) heard ≡ true
        → line_among n heard ≡ heard }
{}

/// A transaction that goes on has ended once a Commit or Rollback was heard, unless the connection went bad.
pub fn a_transaction_ends_with_its_ending()
    ensures { (c k t : ℕ) (J : List Entry) (e : Entry) → GoesOn c k t J → IsIn c k t e → is_ending e.call ≡ true
        → may_follow J e ≡ true → went_bad (e ∷ J) ≡ false → HasEnded c k t (e ∷ J) }
{}

//! Laws of a transaction's tenure. Each is the contract of a function that does nothing.
ghost use Rattle.std.specs.List.{list_all, list_any};
ghost use Rattle.std.specs.Prelude.{◌≡◌, ◌==◌, ◌&&◌, ℕ, Bool, true, false, not, List, [], ◌∷◌, Option, None, Some, All};
ghost use Rattle.dsql_history.specs.course.Made.{Exchange};
ghost use Rattle.dsql_history.specs.course.declared.course.Wish.{Wish};
ghost use Rattle.dsql_history.specs.driver.Kinds.{given_cursor, given_handle, is_ending};
ghost use Rattle.dsql_history.specs.driver.declared.call.DriverCall.{DriverCall};
ghost use Rattle.dsql_history.specs.driver.declared.caps.Caps.{Caps};
ghost use Rattle.dsql_history.specs.journal.HandlesAndCursors.{fits_at_its_place};
ghost use Rattle.dsql_history.specs.journal.Journal.{may_follow};
ghost use Rattle.dsql_history.specs.journal.Kinds.{is_number};
ghost use Rattle.dsql_history.specs.journal.Readers.{cursors, handles, of_tenure, went_bad};
ghost use Rattle.dsql_history.specs.journal.Tenure.{is_whole_tenure};
ghost use Rattle.dsql_history.specs.journal.declared.entry.Entry.{Entry};
ghost use Rattle.dsql_history.specs.Readers.Lines.{has_cursor, has_handle, is_about, line_among};
ghost use Rattle.dsql_history.specs.Rules.Line.{is_due};
ghost use Rattle.dsql_history.specs.Rules.Sent.{inner_after, untested};
ghost use Rattle.dsql_laws_tenures.specs.Orderly.{asks_text, is_in_order, opens_once, prepares_once, OpensOnce, PreparesOnce};
ghost use Rattle.dsql_laws_tenures.specs.Sent.{Grows, IsSentIn, KeepsLines, WasSent};
ghost use Rattle.dsql_laws_tenures.specs.Tenures.{made_by, GoesOn, HasLiveCursor, HasLiveHandle, IsBegun, IsIn, IsOfTransaction};
ghost use Rattle.dsql_history.specs.works.Exchanges.{step_of};
ghost use Rattle.dsql_history.specs.works.Line.{Asked, handed, body_after};

/// A cursor or a handle that a call's line has is live, and is the only one of its number. It was opened in
/// that tenure and in that transaction, and a cursor isn't over unless the line ended its rows.
pub fn what_a_line_has_is_live()
    ensures cursor { (k t n rows : ℕ) (J : List Entry) → IsOfTransaction k t J → has_cursor (made_by n t J) rows ≡ true
        → HasLiveCursor k t rows (made_by n t J) J }
    ensures handle { (k t n handle : ℕ) (J : List Entry) → IsOfTransaction k t J
        → has_handle (made_by n t J) handle ≡ true
        → HasLiveHandle k t handle J }
{}

/// No two lines have the same cursor or the same handle: the driver gave each to the call of its line, in that
/// tenure.
pub fn what_a_line_has_is_its_own()
    ensures cursor { (k t n m rows : ℕ) (J : List Entry) → IsOfTransaction k t J → has_cursor (made_by n t J) rows
        ≡ true
        → has_cursor (made_by m t J) rows ≡ true → n ≡ m }
    ensures given_cursor { (k t n rows : ℕ) (J : List Entry) → IsOfTransaction k t J
        → has_cursor (made_by n t J) rows ≡ true
        → list_any (λ x. (x.call_no == n) && is_number (given_cursor x.answer) rows) (of_tenure t J) ≡ true }
    ensures handle { (k t n m handle : ℕ) (J : List Entry) → IsOfTransaction k t J
        → has_handle (made_by n t J) handle ≡ true
        → has_handle (made_by m t J) handle ≡ true → n ≡ m }
    ensures given_handle { (k t n handle : ℕ) (J : List Entry) → IsOfTransaction k t J
        → has_handle (made_by n t J) handle ≡ true
        → list_any (λ x. (x.call_no == n) && is_number (given_handle x.answer) handle) (of_tenure t J) ≡ true }
{}

/// If each call opens rows at most once, the line of some call has each live cursor of the transaction. This
/// also holds for each live cursor that was opened in its tenure. So if no line has a cursor, no cursor of the
/// transaction is live. If each call prepares at most once, the line of some call has each live handle that was
/// prepared in the tenure.
pub fn what_is_live_is_of_a_line()
    ensures each { (k t : ℕ) (J : List Entry) → IsBegun k t J → OpensOnce t J
        → All (λ c. c.tx ≡ k → (n : ℕ) × (has_cursor (made_by n t J) c.number ≡ true)) (cursors J) }
    ensures there { (k t : ℕ) (J : List Entry) → IsOfTransaction k t J → OpensOnce t J
        → All (λ c. c.tenure ≡ t → (n : ℕ) × (has_cursor (made_by n t J) c.number ≡ true)) (cursors J) }
    ensures handles { (k t : ℕ) (J : List Entry) → IsOfTransaction k t J → PreparesOnce t J
        → All (λ h. h.tenure ≡ t → (n : ℕ) × (has_handle (made_by n t J) h.number ≡ true)) (handles J) }
    ensures none { (k t : ℕ) (J : List Entry) → IsBegun k t J → OpensOnce t J
        → ((n rows : ℕ) → has_cursor (made_by n t J) rows ≡ false)
        → list_all (λ c. not (c.tx == k)) (cursors J) ≡ true }
{}

/// If each driver call of a line was due when it was sent, the line is in order. It opens rows at most once,
/// and prepares at most once.
pub fn what_was_due_is_in_order()
    ensures order { (can : Caps) (asked : Asked) (made : List Exchange) → asks_text asked.aim ≡ true
        → WasSent can asked made
        → is_in_order made ≡ true }
    ensures once { (can : Caps) (asked : Asked) (made : List Exchange) → asks_text asked.aim ≡ true
        → WasSent can asked made
        → opens_once made ≡ true }
    ensures prepares { (can : Caps) (asked : Asked) (made : List Exchange) → asks_text asked.aim ≡ true
        → WasSent can asked made
        → prepares_once made ≡ true }
{}

/// A driver call that is due over rows that were handed out is about those rows, whichever call sends it.
pub fn what_is_due_over_rows_is_about_them()
    ensures { (can : Caps) (asked : Asked) (bad : Bool) (wish : Wish) (made : List Exchange) (rows : ℕ)
        (call : DriverCall) → handed asked.aim made ≡ Some rows → is_in_order made ≡ true
        → is_due (body_after (untested can) bad asked wish made) call ≡ true → is_about made call ≡ true }
{}

/// The lines of a transaction's tenure stay as the laws need them. They are so before anything is heard in the
/// tenure. They stay so after an entry that was due in a line, an entry of no line, and an entry of another
/// tenure. They also stay so as calls that have sent nothing join the transaction.
pub fn what_is_due_keeps_the_lines()
    ensures first { (can : Caps) (asked : ℕ → Option Asked) (t : ℕ) (J : List Entry)
        → ((n : ℕ) (it : Asked) → asked n ≡ Some it → asks_text it.aim ≡ true) → of_tenure t J ≡ []
        → KeepsLines can asked t J }
    ensures sent { (can : Caps) (asked : ℕ → Option Asked) (k t n : ℕ) (it : Asked) (e : Entry) (J : List Entry)
        → IsOfTransaction k t (e ∷ J) → KeepsLines can asked t J → IsSentIn can asked t n it e J
        → KeepsLines can asked t (e ∷ J) }
    ensures stepless { (can : Caps) (asked : ℕ → Option Asked) (t : ℕ) (e : Entry) (J : List Entry)
        → KeepsLines can asked t J
        → step_of e.call ≡ None → KeepsLines can asked t (e ∷ J) }
    ensures elsewhere { (can : Caps) (asked : ℕ → Option Asked) (t : ℕ) (e : Entry) (J : List Entry)
        → KeepsLines can asked t J
        → (e.tenure == t) ≡ false → KeepsLines can asked t (e ∷ J) }
    ensures more { (can : Caps) (asked later : ℕ → Option Asked) (t : ℕ) (J : List Entry) → KeepsLines can asked t J
        → Grows asked later (of_tenure t J) → KeepsLines can later t J }
    ensures once { (can : Caps) (asked : ℕ → Option Asked) (t : ℕ) (J : List Entry) → KeepsLines can asked t J
        → OpensOnce t J }
    ensures prepares { (can : Caps) (asked : ℕ → Option Asked) (t : ℕ) (J : List Entry) → KeepsLines can asked t J
        → PreparesOnce t J }
{}

/// In a transaction that goes on, a due driver call may follow if its line is in order, with each answer that fits
/// there.
pub fn what_is_due_inside_may_follow()
    ensures { (can : Caps) (asked : Asked) (wish : Wish) (c k t m : ℕ) (J : List Entry) (e : Entry) → GoesOn c k t J
        → IsIn c k t e → asks_text asked.aim ≡ true → is_in_order (made_by m t J) ≡ true
        → is_due (inner_after can (went_bad J) asked wish (line_among m (of_tenure t J))) e.call ≡ true
        → fits_at_its_place J e ≡ true → may_follow J e ≡ true }
{}

/// In a transaction that goes on, a Commit or a Rollback may follow if no line has a cursor. It may also follow
/// if the connection is known to be bad.
pub fn an_ending_may_follow()
    ensures closed { (c k t : ℕ) (J : List Entry) (e : Entry) → GoesOn c k t J → IsIn c k t e → is_ending e.call ≡ true
        → OpensOnce t J → ((n rows : ℕ) → has_cursor (made_by n t J) rows ≡ false) → fits_at_its_place J e
        ≡ true → may_follow J e ≡ true }
    ensures bad { (c k t : ℕ) (J : List Entry) (e : Entry) → GoesOn c k t J → IsIn c k t e → is_ending e.call ≡ true
        → went_bad J ≡ true → fits_at_its_place J e ≡ true → may_follow J e ≡ true }
{}

/// The tenure of a transaction that has its Commit or Rollback is whole if no line has a cursor or a handle. It
/// is also whole if the connection is known to be bad.
pub fn an_ended_tenure_is_whole()
    ensures closed { (k t : ℕ) (J : List Entry) → IsOfTransaction k t J → OpensOnce t J → PreparesOnce t J
        → list_any (λ x. is_ending x.call) (of_tenure t J) ≡ true
        → ((n rows : ℕ) → has_cursor (made_by n t J) rows ≡ false)
        → ((n handle : ℕ) → has_handle (made_by n t J) handle ≡ false) → is_whole_tenure t J ≡ true }
    ensures bad { (k t : ℕ) (J : List Entry) → IsOfTransaction k t J → list_any (λ x. is_ending x.call) (of_tenure t J)
        ≡ true → went_bad J ≡ true → is_whole_tenure t J ≡ true }
{}

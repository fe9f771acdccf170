//! Which driver calls carry a statement, in lawful histories. A history is read newest first.
ghost use Rattle.std.specs.Prelude.{◌≡◌, ℕ, true, false, List, Some, is_some};
ghost use Rattle.dsql_laws_calls.specs.course.declared.course.Wish.{Wish};
ghost use Rattle.dsql_laws_calls.specs.driver.declared.call.DriverCall.{DriverCall};
ghost use Rattle.dsql_engine_exchanged.specs.Filled.{Carries, carries_statement};
ghost use Rattle.dsql_laws_calls.specs.history.declared.event.Event.{Event};
ghost use Rattle.dsql_laws_calls.specs.history.Readers.HandedOut.{rows_by};
ghost use Rattle.dsql_laws_calls.specs.history.Rules.Ending.{ending};
ghost use Rattle.dsql_laws_calls.specs.history.Rules.Line.{due_for, tidying};
ghost use Rattle.dsql_laws_calls.specs.history.Rules.Sent.{asked_by, line_of};
ghost use Rattle.dsql_laws_calls.specs.history.Legal.{Lawful};

/// No driver call in the line of a query that has made its rows carries a statement. The line has their cursor,
/// so what is sent there fetches, closes, or tests the connection, whatever is wanted from the rows.
pub fn what_is_sent_over_rows_has_no_statement()
    ensures { (history : List Event) (n : ℕ) (wish : Wish) (call : DriverCall) → Lawful history
        → is_some (rows_by history n) ≡ true → line_of history n wish ≡ Some call → carries_statement call
        ≡ false }
{}

/// What ends a transaction has no statement, and neither has what the layer itself closes or ends.
pub fn what_ends_and_what_tidies_up_has_no_statement()
    ensures ending { (history : List Event) (k : ℕ) (call : DriverCall) → Lawful history → ending history k ≡ Some call
        → carries_statement call ≡ false }
    ensures tidying { (history : List Event) (n : ℕ) (call : DriverCall) → Lawful history
        → tidying history n ≡ Some call
        → carries_statement call ≡ false }
{}

/// The driver call that is due for a call carries the text and the parameters that this call asks, if it has
/// any.
pub fn what_is_due_carries_its_own_statement()
    ensures { (history : List Event) (m : ℕ) (call : DriverCall) → Lawful history → due_for history m ≡ Some call
        → Carries (asked_by history m) call }
{}

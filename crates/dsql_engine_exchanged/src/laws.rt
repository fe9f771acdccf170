//! Laws that follow from the definitions. Each law is the contract of a function that does nothing.
ghost use Rattle.std.specs.Prelude.{◌≡◌, ℕ, Bool, true, List, [], IfSome};
ghost use Rattle.std.specs.List.{list_any};
ghost use Rattle.dsql_history.specs.course.declared.course.Wish.{Wish};
ghost use Rattle.dsql_history.specs.driver.declared.call.DriverCall.TheVariants.{Begin};
ghost use Rattle.dsql_history.specs.driver.declared.call.Level.{Level};
ghost use Rattle.dsql_history.specs.driver.declared.caps.Caps.{Caps};
ghost use Rattle.dsql_history.specs.driver.Kinds.{is_ending, is_valid};
ghost use Rattle.dsql_engine_exchanged.specs.Exchanged.{exchanged_in};
ghost use Rattle.dsql_engine_exchanged.specs.Filled.{Carries};
ghost use Rattle.dsql_engine_exchanged.specs.Lines.{line_told};
ghost use Rattle.dsql_history.specs.journal.declared.entry.Entry.{Entry};
ghost use Rattle.dsql_history.specs.journal.Kinds.{is_number};
ghost use Rattle.dsql_history.specs.journal.Readers.{went_bad};
ghost use Rattle.dsql_history.specs.tx.declared.end.TxEnd.{TxEnd};
ghost use Rattle.dsql_engine_exchanged.specs.Ending.{ending_in};
ghost use Rattle.dsql_engine_exchanged.specs.Heard.{heard_line, none_given_again};
ghost use Rattle.dsql_engine_exchanged.specs.Inside.{inside_told};
ghost use Rattle.dsql_engine_exchanged.specs.Turns.{BeginsInTurn, ComesInTurn};
ghost use Rattle.dsql_engine_exchanged.specs.Worked.{WorkedBegin, WorkedInside, WorkedHeard, WorkedEnd, WorkedTurns};
ghost use Rattle.dsql_history.specs.declared.event.Event.{Event};
ghost use Rattle.dsql_history.specs.Readers.Lines.{has_cursor, has_handle};
ghost use Rattle.dsql_history.specs.Rules.Ending.{end_after};
ghost use Rattle.dsql_history.specs.Rules.Sent.{begin_line, inner_after};
ghost use Rattle.dsql_history.specs.works.Exchanges.{exchanges};
ghost use Rattle.dsql_history.specs.works.Line.{Asked, line_after};

/// The record of a line decides exactly the driver call that is sent next after the line. This holds for a call
/// on the database and for a call in a transaction.
pub fn what_is_told_comes_next_in_the_line()
    ensures made { (line : List Entry) → (exchanged_in line).made ≡ exchanges line }
    ensures on_the_database { (can : Caps) (reset_due : Bool) (asked : Asked) (wish : Wish) (line : List Entry)
        → line_told can reset_due asked wish (exchanged_in line) ≡ line_after can reset_due asked wish line }
    ensures inside { (can : Caps) (bad : Bool) (asked : Asked) (wish : Wish) (line : List Entry)
        → inside_told can bad asked wish (exchanged_in line) ≡ inner_after can bad asked wish line }
{}

/// What was heard in the line of a call in a transaction is what was exchanged there. Its cursor and its handle
/// are those that are open, if no number was given again after it was closed.
pub fn what_was_heard_in_a_line()
    ensures heard { (line : List Entry) → (heard_line line).heard ≡ exchanged_in line }
    ensures cursor { (line : List Entry) (rows : ℕ) → none_given_again (exchanges line) ≡ true
        → is_number (heard_line line).cursor rows ≡ has_cursor (exchanges line) rows }
    ensures handle { (line : List Entry) (handle : ℕ) → none_given_again (exchanges line) ≡ true
        → is_number (heard_line line).handle handle ≡ has_handle (exchanges line) handle }
{}

/// The line of a begin has no step of a course, if each of its entries was next.
pub fn a_begin_exchanges_nothing()
    ensures { (can : Caps) (level : Level) (read_only : Bool) (line : List Entry)
        → BeginsInTurn can (Begin level read_only) line → exchanges line ≡ [] }
{}

/// The line of a call in a transaction gives no number again that was closed, if each of its entries was next.
pub fn a_line_gives_nothing_again()
    ensures { (can : Caps) (asked : Asked) (line : List Entry) → ComesInTurn can asked line
        → none_given_again (exchanges line) ≡ true }
{}

/// The record of a transaction's end says whether its Commit or Rollback was heard, whether the test was, and
/// whether a Bad was.
pub fn what_was_heard_of_an_end()
    ensures ended { (heard : List Entry) → (ending_in heard).ended ≡ list_any (λ e. is_ending e.call) heard }
    ensures tested { (heard : List Entry) → (ending_in heard).tested ≡ list_any (λ e. is_valid e.call) heard }
    ensures bad { (heard : List Entry) → (ending_in heard).bad ≡ went_bad heard }
{}

/// The next driver call carries the text and the parameters that are asked, if it has any.
pub fn what_is_sent_carries_what_is_asked()
    ensures inside { (can : Caps) (bad : Bool) (asked : Asked) (wish : Wish) (line : List Entry)
        → IfSome (inner_after can bad asked wish line) (Carries asked) }
    ensures begin { (can : Caps) (reset_due : Bool) (level : Level) (read_only : Bool) (asked : Asked)
        (line : List Entry)
        → IfSome (begin_line can reset_due (Begin level read_only) line) (Carries asked) }
    ensures end { (before : List Event) (bad : Bool) (end : TxEnd) (asked : Asked) (heard : List Entry)
        → IfSome (end_after before bad end heard) (Carries asked) }
{}

/// A worked begin.
pub fn worked_begin()
    ensures { WorkedBegin }
{}

/// A worked call in a transaction, which hands out rows: what it sends, and which entries belong to its line.
pub fn worked_call_in_a_transaction()
    ensures sends { WorkedInside }
    ensures hears { WorkedHeard }
{}

/// A worked end of a transaction.
pub fn worked_end()
    ensures { WorkedEnd }
{}

/// Each entry of a worked begin and of a worked call in a transaction was next.
pub fn worked_turns()
    ensures { WorkedTurns }
{}

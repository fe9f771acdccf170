//! What the ends of transactions do to rows and transactions, in the words of histories. Each law is the
//! contract of a function that does nothing. A history is read newest first.
ghost use Rattle.std.specs.Prelude.{◌≡◌, ◌≤◌, ℕ, List, length};
ghost use Rattle.dsql_engine_calls.specs.Tried.{most_counted};
ghost use Rattle.dsql_history.specs.driver.declared.answer.DriverAnswer.{DriverAnswer};
ghost use Rattle.dsql_history.specs.driver.declared.call.DriverCall.{DriverCall};
ghost use Rattle.dsql_history.specs.numbered.Numbered.{Numbered, all_changed};
ghost use Rattle.dsql_history.specs.rows.OpenRows.{ended_by};
ghost use Rattle.dsql_history.specs.rows.declared.end.RowsEnd.TheVariants.{EndOfRun};
ghost use Rattle.dsql_history.specs.tx.declared.end.TxEnd.{TxEnd};
ghost use Rattle.dsql_history.specs.tx.declared.tx.Tx.{Tx};
ghost use Rattle.dsql_history.specs.declared.event.Event.{Event};
ghost use Rattle.dsql_history.specs.declared.event.Op.{Op};
ghost use Rattle.dsql_history.specs.declared.work.Work.{Work};
ghost use Rattle.dsql_history.specs.Readers.HandedOut.{ended_with, rows_at_end, rows_entered, rows_heard};
ghost use Rattle.dsql_history.specs.Readers.Transactions.{ends_as};
ghost use Rattle.dsql_history.specs.Readers.Works.{works};
ghost use Rattle.dsql_engine_effects.specs.Ended.{numbered, rows_ended, rows_with_end, txs_with_end, works_inside};
ghost use Rattle.dsql_engine_effects.specs.Heard.{HearsRows};
ghost use Rattle.dsql_engine_effects.specs.Once.{AreMadeOnce};
ghost use Rattle.dsql_engine_effects.specs.Starts.{ending_of};
ghost use Rattle.dsql_history.specs.works.HandedOut.{Made};

/// For the transaction of a label, `end_tx` changes the rows and the transactions as a commit or a rollback of it does
/// as it enters. `end_run` does to the rows what the run's end does to them. For rows this needs that each query made
/// its rows once, and that the calls can be counted.
pub fn ends_are_as_histories_tell()
    ensures rows { (history : List Event) (label : List ℕ) (end : TxEnd) (rows : Made) → length (works history)
        ≤ most_counted
        → AreMadeOnce rows → rows_with_end (ending_of history label end) (works history) rows
        ≡ ended_with history label rows }
    ensures transactions { (history : List Event) (label : List ℕ) (end : TxEnd) (txs : Numbered Tx)
        → txs_with_end (ending_of history label end) txs ≡ ends_as history label end txs }
    ensures run { (history : List Event) (rows : Made) → length (works history) ≤ most_counted → AreMadeOnce rows
        → all_changed (ended_by EndOfRun)
        (rows_ended works_inside 0 (works history) (numbered (works history)) rows) ≡ rows_at_end history rows }
{}

/// If each query made its rows once, this is still so after an answer, after a call has entered, and after the
/// run has ended.
pub fn rows_stay_made_once()
    ensures heard { (history : List Event) (work : Work) (n : ℕ) (call : DriverCall) (answer : DriverAnswer)
        (rows : Made)
        → HearsRows work n call rows → AreMadeOnce rows
        → AreMadeOnce (rows_heard history work n call answer rows) }
    ensures entered { (history : List Event) (op : Op) (rows : Made) → AreMadeOnce rows
        → AreMadeOnce (rows_entered history op rows) }
    ensures ended { (history : List Event) (rows : Made) → AreMadeOnce rows → AreMadeOnce (rows_at_end history rows) }
{}

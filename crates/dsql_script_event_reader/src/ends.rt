//! What ended rows, a transaction or the database, by its word.
ghost use Rattle.std.specs.Prelude.{◌≡◌};
ghost use Rattle.dsql_script_event_reader.specs.ReplyForms.{over_of, db_end_of, tx_end_of};

use dsql_history::{Cause, DbEnd, RowsOver, TxEnd};

/// Returns what ended rows.
pub fn over_of(word: &str) -> Option<RowsOver>
    ensures { result ≡ over_of word.now }
{
    match word {
        "close" => Some(RowsOver::Close),
        "end_of_rows" => Some(RowsOver::EndOfRows),
        "tx" => Some(RowsOver::TxEnded),
        "canceled" => Some(RowsOver::Cancel(Cause::Canceled)),
        "deadline" => Some(RowsOver::Cancel(Cause::Deadline)),
        "failed" => Some(RowsOver::Failed),
        "bad" => Some(RowsOver::BadConn),
        "end" => Some(RowsOver::EndOfRun),
        _ => None,
    }
}

/// Returns what closed the database.
pub fn db_end_of(word: &str) -> Option<DbEnd>
    ensures { result ≡ db_end_of word.now }
{
    match word {
        "close" => Some(DbEnd::Close),
        "end" => Some(DbEnd::EndOfRun),
        _ => None,
    }
}

/// Returns what ended a transaction.
pub fn tx_end_of(word: &str) -> Option<TxEnd>
    ensures { result ≡ tx_end_of word.now }
{
    match word {
        "commit" => Some(TxEnd::Commit),
        "rollback" => Some(TxEnd::Rollback),
        "canceled" => Some(TxEnd::Cancel(Cause::Canceled)),
        "deadline" => Some(TxEnd::Cancel(Cause::Deadline)),
        "end" => Some(TxEnd::EndOfRun),
        _ => None,
    }
}

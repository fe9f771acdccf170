//! The words for isolation levels.
ghost use Rattle.std.specs.Prelude.{◌≡◌};
ghost use Rattle.dsql_script_report.specs.LineCalls.{level_word};

use dsql_history::Level;

/// Returns the word for an isolation level.
pub(crate) fn level_word(level: Level) -> &'static str
    ensures { result.now ≡ level_word level }
{
    match level {
        Level::Default => "default",
        Level::ReadUncommitted => "read_uncommitted",
        Level::ReadCommitted => "read_committed",
        Level::WriteCommitted => "write_committed",
        Level::RepeatableRead => "repeatable_read",
        Level::Snapshot => "snapshot",
        Level::Serializable => "serializable",
        Level::Linearizable => "linearizable",
    }
}

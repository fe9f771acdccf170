//! The one connection to SQLite.
ghost use Rattle.std.specs.Prelude.{◌≡◌, true, false, not, codes, IfOk, OnOk, is_ok};
ghost use Rattle.sqlite_driver.specs.Connection.{Compiles, Finds, Issues, RollsBack, Runs, in_transaction};
ghost use Rattle.sqlite_driver.specs.Holder.{MayHold, is_guarded};

use crate::failure::Failure;
use crate::statements;
use crate::statements::Executed;
use dsql_driver_session::ResultSet;
use dsql_value::Param;
use sqlite::{Connection, File, FileStore, MemStore};
use std::alloc::Global;

/// A connection to a database in memory, or to one in a file.
#[derive(Drop)]
pub(crate) enum SqliteConnection {
    Memory(Connection<MemStore>),
    File(Connection<FileStore<File>>),
}

impl SqliteConnection {
    /// Returns true if no transaction is open.
    pub(crate) fn is_autocommit(&self) -> bool
        ensures { result ≡ not (in_transaction self.now) }
    {
        match self {
            SqliteConnection::Memory(connection) => connection.is_autocommit(),
            SqliteConnection::File(connection) => connection.is_autocommit(),
        }
    }

    /// Compiles a text and returns the number of its inputs.
    pub(crate) fn inputs(&mut self, text: &str) -> Result<u16, Failure>
        ensures compiles { IfOk result (λ inputs. Compiles text.now inputs self.old self.new) }
        ensures mode { in_transaction self.old ≡ false → in_transaction self.new ≡ false }
    {
        match self {
            SqliteConnection::Memory(connection) => statements::inputs(connection, text),
            SqliteConnection::File(connection) => statements::inputs(connection, text),
        }
    }

    /// Executes a text that is no query.
    pub(crate) fn execute(
        &mut self,
        alloc: Global,
        text: &str,
        params: &[Param],
    ) -> Result<Executed, Failure>
        ensures { IfOk result (λ executed. Runs text.now params.now executed self.old self.new) }
    {
        match self {
            SqliteConnection::Memory(connection) => {
                statements::execute(alloc, connection, text, params)
            }
            SqliteConnection::File(connection) => {
                statements::execute(alloc, connection, text, params)
            }
        }
    }

    /// Queries a text, and reads all rows of its answer.
    pub(crate) fn query(
        &mut self,
        alloc: Global,
        text: &str,
        params: &[Param],
    ) -> Result<ResultSet, Failure>
        ensures { IfOk result (λ set. Finds text.now params.now set self.old self.new) }
    {
        match self {
            SqliteConnection::Memory(connection) => {
                statements::query(alloc, connection, text, params)
            }
            SqliteConnection::File(connection) => {
                statements::query(alloc, connection, text, params)
            }
        }
    }

    /// Begins a transaction.
    pub(crate) fn begin(&mut self) -> Result<(), Failure>
        ensures { OnOk result (Issues (codes "BEGIN") true self.old self.new) }
    {
        self.execute_plain("BEGIN")?;
        Ok(())
    }

    /// Commits the transaction. If that fails, the transaction may be open still.
    pub(crate) fn commit(&mut self) -> Result<(), Failure>
        ensures committed { OnOk result (Issues (codes "COMMIT") true self.old self.new) }
        ensures over { OnOk result (in_transaction self.new ≡ false) }
    {
        self.execute_plain("COMMIT")?;
        if self.is_autocommit() {
            Ok(())
        } else {
            Err(Failure::transaction_state())
        }
    }

    /// Rolls back if a transaction is open. Returns false if it is open still, because SQLite couldn't roll back.
    pub(crate) fn roll_back(&mut self) -> bool
        ensures ended { result ≡ not (in_transaction self.new) }
        ensures undone { RollsBack self.old self.new }
    {
        if self.is_autocommit() {
            return true;
        }
        let _ = self.execute_plain("ROLLBACK");
        self.is_autocommit()
    }

    /// Executes a text without inputs that begins or ends a transaction.
    fn execute_plain(&mut self, text: &str) -> Result<(), Failure>
        ensures { Issues text.now (is_ok result) self.old self.new }
    {
        match self {
            SqliteConnection::Memory(connection) => statements::execute_plain(connection, text),
            SqliteConnection::File(connection) => statements::execute_plain(connection, text),
        }
    }

    /// Returns which wire holds the database after a statement of this wire, which was done or failed. If a failure
    /// ended the wire's transaction, the wire holds the database on.
    pub(crate) fn holder_after(&self, who: u32, is_done: bool, holder: Option<u32>) -> Option<u32>
        ensures guarded { is_guarded self.now result ≡ true }
        ensures holds { MayHold who holder result }
    {
        if !self.is_autocommit() {
            Some(who)
        } else if is_done {
            None
        } else {
            holder
        }
    }
}

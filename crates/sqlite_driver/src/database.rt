ghost use Rattle.std.specs.Prelude.{◌≡◌, None, true, false, codes, is_ok, IfOk, OnOk};
ghost use Rattle.sqlite_driver.specs.Connection.{Compiles, Finds, Issues, RollsBack, Runs, in_transaction};
ghost use Rattle.sqlite_driver.specs.Holder.{MayHold, is_cut_off, is_guarded, is_held_by, is_held_by_other};

use crate::connection::SqliteConnection;
use crate::failure::Failure;
use crate::statements::Executed;
use dsql_driver_session::ResultSet;
use dsql_value::{Memory, Param};
use sqlite::{Connection, File, FileStore};
use std::alloc::Global;

/// One SQLite database with the one connection to it, which all wires share. A wire holds the database from
/// the begin of its transaction to the end. If a failure ends the transaction, the wire holds the database on until it
/// commits or rolls back.
#[derive(Drop)]
pub(crate) struct Database {
    connection: SqliteConnection,
    holder: Option<u32>,
    ghost guarded: { is_guarded connection holder ≡ true },
}

impl Database {
    /// Returns an empty database in memory, which no wire holds.
    pub(crate) fn in_memory(alloc: Global) -> Result<Database, Memory>
        ensures { IfOk result (λ database. database.holder ≡ None) }
    {
        let connection = Connection::open_in_memory(alloc)?;
        Ok(Database {
            connection: SqliteConnection::Memory(connection),
            holder: None,
        })
    }

    /// Returns the database of a file, which no wire holds, from its connection in autocommit.
    pub(crate) fn in_file(connection: Connection<FileStore<File>>) -> Database
        requires { connection.in_transaction ≡ false }
        ensures { result.holder ≡ None }
    {
        Database {
            connection: SqliteConnection::File(connection),
            holder: None,
        }
    }

    /// Returns true if this wire holds the database.
    fn is_held_by(&self, who: u32) -> bool
        ensures { result ≡ is_held_by who self.now.holder }
    {
        match self.holder {
            None => false,
            Some(holder) => holder == who,
        }
    }

    /// Returns true if another wire than this one holds the database.
    pub(crate) fn is_held_by_other(&self, who: u32) -> bool
        ensures { result ≡ is_held_by_other who self.now.holder }
    {
        match self.holder {
            None => false,
            Some(holder) => holder != who,
        }
    }

    /// Compiles a text and returns the number of its inputs.
    pub(crate) fn inputs(&mut self, who: u32, text: &str) -> Result<u16, Failure>
        ensures compiles { IfOk result (λ inputs. Compiles text.now inputs self.old.connection self.new.connection) }
        ensures refused { is_cut_off who self.old.connection self.old.holder ≡ true → is_ok result ≡ false }
        ensures rests { is_cut_off who self.old.connection self.old.holder ≡ true → self.new ≡ self.old }
        ensures holder { self.new.holder ≡ self.old.holder }
    {
        self.check_usable(who)?;
        self.connection.inputs(text)
    }

    /// Executes a text that is no query. The text may begin or end the wire's transaction.
    pub(crate) fn execute(
        &mut self,
        alloc: Global,
        who: u32,
        text: &str,
        params: &[Param],
    ) -> Result<Executed, Failure>
        ensures runs { IfOk result (λ executed. Runs text.now params.now executed
            self.old.connection self.new.connection) }
        ensures refused { is_cut_off who self.old.connection self.old.holder ≡ true → is_ok result ≡ false }
        ensures rests { is_cut_off who self.old.connection self.old.holder ≡ true → self.new ≡ self.old }
        ensures holds { MayHold who self.old.holder self.new.holder }
    {
        self.check_usable(who)?;
        let executed = self.connection.execute(alloc, text, params);
        self.holder = self
            .connection
            .holder_after(who, executed.is_ok(), self.holder);
        executed
    }

    /// Queries a text, and reads all rows of its answer.
    pub(crate) fn query(
        &mut self,
        alloc: Global,
        who: u32,
        text: &str,
        params: &[Param],
    ) -> Result<ResultSet, Failure>
        ensures finds { IfOk result (λ set. Finds text.now params.now set self.old.connection self.new.connection) }
        ensures refused { is_cut_off who self.old.connection self.old.holder ≡ true → is_ok result ≡ false }
        ensures rests { is_cut_off who self.old.connection self.old.holder ≡ true → self.new ≡ self.old }
        ensures holds { MayHold who self.old.holder self.new.holder }
    {
        self.check_usable(who)?;
        let set = self.connection.query(alloc, text, params);
        self.holder = self.connection.holder_after(who, set.is_ok(), self.holder);
        set
    }

    /// Begins a transaction, with which the wire holds the database.
    pub(crate) fn begin(&mut self, who: u32) -> Result<(), Failure>
        ensures begun { OnOk result (Issues (codes "BEGIN") true self.old.connection self.new.connection) }
        ensures refused { is_cut_off who self.old.connection self.old.holder ≡ true → is_ok result ≡ false }
        ensures rests { is_cut_off who self.old.connection self.old.holder ≡ true → self.new ≡ self.old }
        ensures holds { MayHold who self.old.holder self.new.holder }
    {
        self.check_usable(who)?;
        let begun = self.connection.begin();
        self.holder = self
            .connection
            .holder_after(who, begun.is_ok(), self.holder);
        begun
    }

    /// Commits the wire's transaction. Fails if none is open, or if a failure has ended it.
    pub(crate) fn commit(&mut self, who: u32) -> Result<(), Failure>
        ensures other { is_held_by_other who self.old.holder ≡ true → self.new ≡ self.old }
        ensures over { OnOk result (is_held_by who self.new.holder ≡ false) }
        ensures had { OnOk result (is_held_by who self.old.holder ≡ true) }
        ensures committed { OnOk result (Issues (codes "COMMIT") true self.old.connection self.new.connection) }
        ensures holds { MayHold who self.old.holder self.new.holder }
    {
        if !self.is_held_by(who) || self.connection.is_autocommit() {
            let _released = self.release(who);
            return Err(Failure::transaction_state());
        }
        match self.connection.commit() {
            Ok(()) => {
                self.holder = None;
                Ok(())
            }
            Err(failure) => {
                if self.release(who) {
                    Err(failure)
                } else {
                    Err(Failure::out_of_memory())
                }
            }
        }
    }

    /// Rolls back the wire's transaction. Fails if none is open.
    pub(crate) fn roll_back(&mut self, who: u32) -> Result<(), Failure>
        ensures other { is_held_by_other who self.old.holder ≡ true → self.new ≡ self.old }
        ensures over { OnOk result (is_held_by who self.new.holder ≡ false) }
        ensures had { OnOk result (is_held_by who self.old.holder ≡ true) }
        ensures undone { OnOk result (RollsBack self.old.connection self.new.connection) }
        ensures holds { MayHold who self.old.holder self.new.holder }
    {
        if !self.is_held_by(who) {
            return Err(Failure::transaction_state());
        }
        if self.release(who) {
            Ok(())
        } else {
            Err(Failure::out_of_memory())
        }
    }

    /// Rolls back the wire's transaction, if one is open. Returns false if the wire holds the database on, because
    /// SQLite couldn't roll back.
    pub(crate) fn release(&mut self, who: u32) -> bool
        ensures stays { is_held_by who self.old.holder ≡ false → self.new ≡ self.old }
        ensures other { is_held_by_other who self.old.holder ≡ true → self.new ≡ self.old }
        ensures over { result ≡ true → is_held_by who self.new.holder ≡ false }
        ensures undone { is_held_by who self.old.holder ≡ true → RollsBack self.old.connection self.new.connection }
        ensures unreleased { result ≡ false → in_transaction self.new.connection ≡ true }
        ensures kept { result ≡ false → is_held_by who self.new.holder ≡ true }
        ensures holds { MayHold who self.old.holder self.new.holder }
    {
        if !self.is_held_by(who) {
            return true;
        }
        if !self.connection.roll_back() {
            return false;
        }
        self.holder = None;
        true
    }

    /// Returns `Ok` unless a failure has ended the wire's transaction. Until the wire commits or rolls back, its
    /// statements are refused, because they would be committed one by one.
    fn check_usable(&self, who: u32) -> Result<(), Failure>
        ensures { OnOk result (is_cut_off who self.now.connection self.now.holder ≡ false) }
    {
        if self.is_held_by(who) && self.connection.is_autocommit() {
            Err(Failure::transaction_state())
        } else {
            Ok(())
        }
    }
}

ghost use Rattle.std.specs.Prelude.{◌≡◌, ◌≤◌, [], Some, true, false, is_some, unwrap_or, IfOk, IfErr, IfSome, OnOk, OnErr};
ghost use Rattle.dsql_driver.specs.Fits.{is_fault, is_memory};
ghost use Rattle.dsql_driver.specs.Streams.{HasRisen};
ghost use Rattle.dsql_driver.specs.Wires.{answer_of, connected_after, newly_told, plans_after, is_fault_of};
ghost use Rattle.dsql_driver.specs.declared.answer.DriverAnswer.TheVariants.{Done};
ghost use Rattle.dsql_mem_plans.specs.Faults.{faults_after};
ghost use Rattle.dsql_mem_plans.specs.Fleets.{new_fleet, after_wire_plan, planned_for, connect_fault};
ghost use Rattle.dsql_driver_session.specs.Session.{handles_of, cursors_of};
ghost use Rattle.sqlite_driver.specs.Wire.{ability_of, new_wire};

use crate::database::Database;
use crate::wire::SqliteWire;
use dsql_driver::{Caps, Fleet, Planned, Refused};
use dsql_mem_plans::FleetLog;
use dsql_value::Memory;
use sqlite::{Connection, File, FileStore};
use std::marker::Model;
use std::sync::{Arc, Mutex, Wait};

/// What the driver can do by itself, which is everything.
const DEFAULT_CAPS: Caps = Caps {
    fast_exec: true,
    fast_query: true,
    begin_options: true,
    named: true,
    pinger: true,
    resetter: true,
    validator: true,
};

/// A driver over SQLite. Its connections share one database, which is in memory or in a file.
#[derive(Drop)]
pub struct SqliteFleet<R: AllocGlobal + Wait + Clone + Drop + Send> {
    rt: R,
    database: Arc<Mutex<Database>>,
    log: FleetLog,
}

impl<R: AllocGlobal + Wait + Clone + Drop + Send> Model for SqliteFleet<R> {
    ghost use Rattle.dsql_mem_plans.specs.Fleets.{FleetState};

    ghost Value = { FleetState };

    ghost view = { λ f. f.log };
}

impl<R: AllocGlobal + Wait + Clone + Drop + Send> SqliteFleet<R> {
    /// Returns a fleet with no wire yet over an empty database in memory.
    pub fn new(rt: &R) -> Result<SqliteFleet<R>, Memory>
        ensures { IfOk result (λ fleet. fleet ≡ new_fleet) }
    {
        let database = Database::in_memory(rt.alloc())?;
        SqliteFleet::over(rt, database)
    }

    /// Returns a fleet with no wire yet over the database of a file, from its connection in autocommit. The log of the
    /// file stays beside it when the fleet is dropped, and the next open finds what was committed.
    pub fn on_file(
        rt: &R,
        connection: Connection<FileStore<File>>,
    ) -> Result<SqliteFleet<R>, Memory>
        requires { connection.in_transaction ≡ false }
        ensures { IfOk result (λ fleet. fleet ≡ new_fleet) }
    {
        SqliteFleet::over(rt, Database::in_file(connection))
    }

    /// Returns a fleet with no wire yet over a database that no wire holds.
    fn over(rt: &R, database: Database) -> Result<SqliteFleet<R>, Memory>
        ensures { IfOk result (λ fleet. fleet ≡ new_fleet) }
    {
        let database = Arc::new(rt.alloc(), Mutex::new(database))?;
        let log = FleetLog::new(rt.alloc());
        let rt = rt.clone()?;
        Ok(SqliteFleet { rt, database, log })
    }
}

impl<R: AllocGlobal + Wait + Clone + Drop + Send> Fleet for SqliteFleet<R> {
    type Wire = SqliteWire<R>;

    ghost ability = { ability_of };

    ghost preferred = { λ f. f.preferred };

    ghost told = { λ f. Some f.told };

    ghost faults = { λ f. f.faults };

    fn caps(&self) -> Caps {
        self.log.preferred().unwrap_or(DEFAULT_CAPS)
    }

    fn prefer(&mut self, caps: Caps) {
        self.log.prefer(caps);
    }

    fn plan(&mut self, wire: u32, nth: u32, what: Planned) -> Result<(), Memory>
        ensures told { OnOk result (Some self.new.told ≡ plans_after (wire, (nth, what)) (Some self.old.told)) }
        ensures err { OnErr result (Some self.new.told ≡ Some self.old.told) }
        ensures ability { ability_of self.new ≡ ability_of self.old }
        ensures preferred { self.new.preferred ≡ self.old.preferred }
        ensures faultless { self.new.faults ≡ self.old.faults }

        // Nothing else of the fleet changes.
        ensures planned { OnOk result (self.new ≡ after_wire_plan (wire, (nth, what)) self.old) }
        ensures stays { OnErr result (self.new ≡ self.old) }
    {
        self.log.plan(wire, nth, what)
    }

    fn connect(&mut self, number: u32) -> Result<SqliteWire<R>, Refused>
        ensures asked { Some self.new.told ≡ connected_after number (answer_of result) (Some self.old.told) }
        ensures new { IfOk result (λ w. IfSome (Some w.log.told) (λ told. told ≡ newly_told number)) }
        ensures telling { IfOk result (λ w. is_some (Some self.old.told) ≡ true → is_some (Some w.log.told) ≡ true) }
        ensures handles { IfOk result (λ w. handles_of w.session ≡ []) }
        ensures cursors { IfOk result (λ w. cursors_of w.session ≡ []) }
        ensures ability { ability_of self.new ≡ ability_of self.old }
        ensures preferred { self.new.preferred ≡ self.old.preferred }
        ensures counted { self.old.faults ≤ self.new.faults }
        ensures caused { IfErr result (λ r. is_fault_of r ≡ true → HasRisen self.old.faults self.new.faults) }
        ensures faultless { is_fault (answer_of result) ≡ false → self.new.faults ≡ self.old.faults }

        // A fleet of SQLite promises more. Either it refuses the Connect by the fault that was planned in its place, or
        // the wire's session is new. What is planned for the wire goes with it.
        ensures planned { is_memory (answer_of result) ≡ false
            → answer_of result ≡ unwrap_or (connect_fault number self.old) Done }
        ensures fresh { IfOk result (λ w. w ≡ new_wire number (planned_for number self.old)) }
        ensures faults { self.new.faults ≡ faults_after self.old.faults (answer_of result) }
    {
        let planned = match self.log.admit(self.rt.alloc(), number) {
            Ok(planned) => planned,
            Err(refused) => return Err(refused),
        };
        let Ok(wire) = SqliteWire::open(&self.rt, &self.database, number, planned) else {
            return Err(self.log.note_want(number));
        };
        match self.log.note_connected(number) {
            Ok(()) => Ok(wire),
            Err(Memory) => Err(self.log.note_want(number)),
        }
    }

    fn retire(&mut self, number: u32, wire: SqliteWire<R>) {
        let log = wire.into_log();
        give_back(&self.rt, &self.database, log.number());
        self.log.retire(number, log);
    }
}

/// Rolls back what the wire with this number left open. Without a Shut the wire may still hold the database.
fn give_back<R: Wait>(rt: &R, database: &Mutex<Database>, who: u32) {
    let mut database = database.lock(rt);
    let _released = database.release(who);
}

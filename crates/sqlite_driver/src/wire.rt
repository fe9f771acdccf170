ghost use Rattle.std.specs.Prelude.{◌≡◌, ◌≤◌, Some, true, false, IfOk, OnOk, OnErr};
ghost use Rattle.dsql_driver.specs.Fits.{fits_of, is_fault, is_memory};
ghost use Rattle.dsql_driver.specs.Streams.{HasRisen};
ghost use Rattle.dsql_driver.specs.Wires.{told_after, with_plan, KeepsHandles, KeepsCursors};
ghost use Rattle.sqlite_driver.specs.Wire.{Hears, new_wire, after_plan, after_want};
ghost use Rattle.dsql_driver_session.specs.Session.{handles_of, cursors_of};

use crate::database::Database;
use crate::planned_session::PlannedSession;
use dsql_driver::{Answered, DriverCall, Planned, Wire};
use dsql_mem_plans::{Plan, WireLog};
use dsql_value::Memory;
use std::marker::Model;
use std::sync::{Arc, Mutex, Wait};

/// A connection to the SQLite database of its fleet. It shares the database with the other wires.
#[derive(Drop)]
pub struct SqliteWire<R: AllocGlobal + Wait + Drop> {
    rt: R,
    database: Arc<Mutex<Database>>,
    session: PlannedSession,
}

impl<R: AllocGlobal + Wait + Drop> Model for SqliteWire<R> {
    ghost use Rattle.sqlite_driver.specs.Wire.{WireState};

    ghost Value = { WireState };

    ghost view = { λ w. w.session };
}

impl<R: AllocGlobal + Wait + Clone + Drop> SqliteWire<R> {
    /// Returns a wire that has heard only its Connect, with what its fleet planned for it.
    pub(crate) fn open(
        rt: &R,
        database: &Arc<Mutex<Database>>,
        number: u32,
        planned: Vec<Plan>,
    ) -> Result<SqliteWire<R>, Memory>
        ensures { IfOk result (λ wire. wire ≡ new_wire number planned.items) }
    {
        let session = PlannedSession::new(rt.alloc(), number, planned)?;
        let database = Arc::try_clone(database)?;
        let rt = rt.clone()?;
        Ok(SqliteWire {
            rt,
            database,
            session,
        })
    }
}

impl<R: AllocGlobal + Wait + Drop> SqliteWire<R> {
    /// Returns the wire's log.
    pub(crate) fn into_log(self) -> WireLog
        ensures { result ≡ self.log }
    {
        let SqliteWire { session, .. } = self;
        session.into_log()
    }
}

impl<R: AllocGlobal + Wait + Drop> Wire for SqliteWire<R> {
    ghost told = { λ w. Some w.log.told };

    ghost faults = { λ w. w.log.faults };

    ghost handles = { λ w. handles_of w.session };

    ghost cursors = { λ w. cursors_of w.session };

    fn call(&mut self, call: &DriverCall) -> Answered
        ensures copied { result.copy ≡ result.answer }
        ensures fitting { fits_of call.now result.answer ≡ true }
        ensures told { Some self.new.log.told ≡ told_after call.now result.answer (Some self.old.log.told) }
        ensures handles { KeepsHandles call.now result.answer (handles_of self.old.session)
            (handles_of self.new.session) }
        ensures cursors { KeepsCursors call.now result.answer (cursors_of self.old.session)
            (cursors_of self.new.session) }
        ensures counted { self.old.log.faults ≤ self.new.log.faults }
        ensures caused { is_fault result.answer ≡ true → HasRisen self.old.log.faults self.new.log.faults }
        ensures faultless { is_fault result.answer ≡ false → self.new.log.faults ≡ self.old.log.faults }

        // A wire of SQLite promises more: which answers it may have, and what it is afterwards. What the database does
        // isn't said, because other wires write to it too. After the answer Memory only the report of the wire has
        // changed.
        ensures heard { is_memory result.answer ≡ false → Hears call.now result self.old self.new }
        ensures wants { is_memory result.answer ≡ true → self.new ≡ after_want call.now self.old }
    {
        let mut database = self.database.lock(&self.rt);
        self.session.answer(self.rt.alloc(), &mut database, call)
    }

    fn plan(&mut self, nth: u32, what: Planned) -> Result<(), Memory>
        ensures told { OnOk result (Some self.new.log.told ≡ Some (with_plan (nth, what) self.old.log.told)) }
        ensures err { OnErr result (Some self.new.log.told ≡ Some self.old.log.told) }
        ensures handles { handles_of self.new.session ≡ handles_of self.old.session }
        ensures cursors { cursors_of self.new.session ≡ cursors_of self.old.session }
        ensures faultless { self.new.log.faults ≡ self.old.log.faults }

        // Nothing else of the wire changes.
        ensures planned { OnOk result (self.new ≡ after_plan (nth, what) self.old) }
        ensures stays { OnErr result (self.new ≡ self.old) }
    {
        self.session.plan(nth, what)
    }
}

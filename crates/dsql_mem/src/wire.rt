ghost use Rattle.std.specs.Prelude.{◌≡◌, ◌≤◌, Some, true, false, IfOk, OnOk, OnErr};
ghost use Rattle.dsql_driver.specs.Fits.{fits_of, is_fault, is_memory};
ghost use Rattle.dsql_driver.specs.Streams.{HasRisen};
ghost use Rattle.dsql_driver.specs.Wires.{told_after, with_plan, KeepsHandles, KeepsCursors};
ghost use Rattle.dsql_driver_session.specs.Session.{handles_of, cursors_of};
ghost use Rattle.dsql_mem_store.specs.Entries.{Entries, AreAscending};
ghost use Rattle.dsql_mem.specs.Wire.{new_wire, after_plan, after_want, CarriesOut};

use crate::connection::Connection;
use dsql_driver::{Answered, DriverCall, Planned, Wire};
use dsql_mem_plans::{Plan, WireLog};
use dsql_mem_store::Store;
use dsql_value::Memory;
use std::marker::Model;
use std::sync::{Arc, Mutex, Wait};

/// A connection to a store in memory. It shares the store with the other wires of its fleet.
#[derive(Drop)]
pub struct MemWire<R: AllocGlobal + Wait + Drop> {
    rt: R,
    store: Arc<Mutex<Store>>,
    connection: Connection,
}

impl<R: AllocGlobal + Wait + Drop> Model for MemWire<R> {
    ghost use Rattle.dsql_mem.specs.Wire.{WireState};

    ghost Value = { WireState };

    ghost view = { λ w. w.connection };
}

impl<R: AllocGlobal + Wait + Clone + Drop> MemWire<R> {
    /// Returns a wire that has heard only its Connect, with what its fleet planned for it.
    pub(crate) fn open(
        rt: &R,
        store: &Arc<Mutex<Store>>,
        number: u32,
        planned: Vec<Plan>,
    ) -> Result<MemWire<R>, Memory>
        ensures { IfOk result (λ wire. wire ≡ new_wire number planned.items) }
    {
        let connection = Connection::new(rt.alloc(), number, planned)?;
        let store = Arc::try_clone(store)?;
        let rt = rt.clone()?;
        Ok(MemWire {
            rt,
            store,
            connection,
        })
    }
}

impl<R: AllocGlobal + Wait + Drop> MemWire<R> {
    /// Returns the wire's log.
    pub(crate) fn into_log(self) -> WireLog
        ensures { result.told ≡ self.told }
    {
        let MemWire { connection, .. } = self;
        connection.into_log()
    }
}

impl<R: AllocGlobal + Wait + Drop> Wire for MemWire<R> {
    ghost told = { λ w. Some w.told };

    ghost faults = { λ w. w.faults };

    ghost handles = { λ w. handles_of w.session.live };

    ghost cursors = { λ w. cursors_of w.session.live };

    /// Makes one call on the store that all wires of the fleet share. No clause says that the store is as earlier calls
    /// left it, those of this wire or those of another one.
    fn call(&mut self, call: &DriverCall) -> Answered
        ensures copied { result.copy ≡ result.answer }
        ensures fitting { fits_of call.now result.answer ≡ true }
        ensures told { Some self.new.told ≡ told_after call.now result.answer (Some self.old.told) }
        ensures handles { KeepsHandles call.now result.answer (handles_of self.old.session.live)
            (handles_of self.new.session.live) }
        ensures cursors { KeepsCursors call.now result.answer (cursors_of self.old.session.live)
            (cursors_of self.new.session.live) }
        ensures counted { self.old.faults ≤ self.new.faults }
        ensures caused { is_fault result.answer ≡ true → HasRisen self.old.faults self.new.faults }
        ensures faultless { is_fault result.answer ≡ false → self.new.faults ≡ self.old.faults }

        // A wire in memory promises more: its answer, and what it is afterwards. The answer is the planned
        // fault if one stands in the call's place. Otherwise it is right for some store with ascending keys. A lock
        // tells a contract no more of the store, so the clause doesn't say which one it is. After the answer Memory
        // only the report of the wire has changed.
        ensures carried_out { is_memory result.answer ≡ false → (store : Entries) × AreAscending store
            × CarriesOut store call.now result.answer self.old self.new }
        ensures wants { is_memory result.answer ≡ true → self.new ≡ after_want call.now self.old }
    {
        let mut store = self.store.lock(&self.rt);
        self.connection.answer(self.rt.alloc(), &mut store, call)
    }

    fn plan(&mut self, nth: u32, what: Planned) -> Result<(), Memory>
        ensures told { OnOk result (Some self.new.told ≡ Some (with_plan (nth, what) self.old.told)) }
        ensures err { OnErr result (Some self.new.told ≡ Some self.old.told) }
        ensures handles { handles_of self.new.session.live ≡ handles_of self.old.session.live }
        ensures cursors { cursors_of self.new.session.live ≡ cursors_of self.old.session.live }
        ensures faultless { self.new.faults ≡ self.old.faults }

        // Nothing else of the wire changes.
        ensures planned { OnOk result (self.new ≡ after_plan (nth, what) self.old) }
        ensures stays { OnErr result (self.new ≡ self.old) }
    {
        self.connection.plan(nth, what)
    }
}

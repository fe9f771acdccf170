ghost use Rattle.std.specs.Prelude.{◌≡◌, ◌≤◌, [], Some, true, false, is_some, unwrap_or, IfOk, IfErr, IfSome, OnOk, OnErr};
ghost use Rattle.dsql_driver.specs.Fits.{is_fault, is_memory};
ghost use Rattle.dsql_driver.specs.Streams.{HasRisen};
ghost use Rattle.dsql_driver.specs.Wires.{answer_of, connected_after, newly_told, plans_after, is_fault_of};
ghost use Rattle.dsql_driver.specs.declared.answer.DriverAnswer.TheVariants.{Done};
ghost use Rattle.dsql_driver_session.specs.Session.{handles_of, cursors_of};
ghost use Rattle.dsql_mem_plans.specs.Faults.{faults_after};
ghost use Rattle.dsql_mem_plans.specs.Fleets.{new_fleet, after_wire_plan, planned_for, connect_fault};
ghost use Rattle.dsql_mem.specs.Wire.{ability_of, new_wire};

use crate::wire::MemWire;
use dsql_driver::{Caps, Fleet, Planned, Refused};
use dsql_mem_plans::FleetLog;
use dsql_mem_store::Store;
use dsql_value::Memory;
use std::marker::Model;
use std::sync::{Arc, Mutex, Wait};

/// What a driver in memory can do by itself: all except named parameters.
const DEFAULT_CAPS: Caps = Caps {
    fast_exec: true,
    fast_query: true,
    begin_options: true,
    named: false,
    pinger: true,
    resetter: true,
    validator: true,
};

/// A driver in memory. Its connections share one store.
#[derive(Drop)]
pub struct MemFleet<R: AllocGlobal + Wait + Clone + Drop + Send> {
    rt: R,
    store: Arc<Mutex<Store>>,
    log: FleetLog,
}

impl<R: AllocGlobal + Wait + Clone + Drop + Send> Model for MemFleet<R> {
    ghost use Rattle.dsql_mem_plans.specs.Fleets.{FleetState};

    ghost Value = { FleetState };

    ghost view = { λ f. f.log };
}

impl<R: AllocGlobal + Wait + Clone + Drop + Send> MemFleet<R> {
    /// Returns a fleet with no connection yet and an empty store. No clause says that the store is empty.
    pub fn new(rt: R) -> Result<MemFleet<R>, Memory>
        ensures { IfOk result (λ fleet. fleet ≡ new_fleet) }
    {
        let store = Arc::new(rt.alloc(), Mutex::new(Store::new(rt.alloc())))?;
        let log = FleetLog::new(rt.alloc());
        Ok(MemFleet { rt, store, log })
    }
}

impl<R: AllocGlobal + Wait + Clone + Drop + Send> Fleet for MemFleet<R> {
    type Wire = MemWire<R>;

    ghost ability = { ability_of };

    ghost preferred = { λ f. f.preferred };

    ghost told = { λ f. Some f.told };

    ghost faults = { λ f. f.faults };

    fn caps(&self) -> Caps {
        self.log.preferred().unwrap_or(DEFAULT_CAPS)
    }

    fn prefer(&mut self, caps: Caps) {
        self.log.prefer(caps);
    }

    fn plan(&mut self, wire: u32, nth: u32, what: Planned) -> Result<(), Memory>
        ensures told { OnOk result (Some self.new.told ≡ plans_after (wire, (nth, what)) (Some self.old.told)) }
        ensures err { OnErr result (Some self.new.told ≡ Some self.old.told) }
        ensures ability { ability_of self.new ≡ ability_of self.old }
        ensures preferred { self.new.preferred ≡ self.old.preferred }
        ensures faultless { self.new.faults ≡ self.old.faults }

        // Nothing else of the fleet changes.
        ensures planned { OnOk result (self.new ≡ after_wire_plan (wire, (nth, what)) self.old) }
        ensures stays { OnErr result (self.new ≡ self.old) }
    {
        self.log.plan(wire, nth, what)
    }

    /// Opens a connection, whose wire shares the fleet's store. No clause says that all wires share one store.
    fn connect(&mut self, number: u32) -> Result<MemWire<R>, Refused>
        ensures asked { Some self.new.told ≡ connected_after number (answer_of result) (Some self.old.told) }
        ensures new { IfOk result (λ w. IfSome (Some w.told) (λ told. told ≡ newly_told number)) }
        ensures telling { IfOk result (λ w. is_some (Some self.old.told) ≡ true → is_some (Some w.told) ≡ true) }
        ensures handles { IfOk result (λ w. handles_of w.session.live ≡ []) }
        ensures cursors { IfOk result (λ w. cursors_of w.session.live ≡ []) }
        ensures ability { ability_of self.new ≡ ability_of self.old }
        ensures preferred { self.new.preferred ≡ self.old.preferred }
        ensures counted { self.old.faults ≤ self.new.faults }
        ensures caused { IfErr result (λ r. is_fault_of r ≡ true → HasRisen self.old.faults self.new.faults) }
        ensures faultless { is_fault (answer_of result) ≡ false → self.new.faults ≡ self.old.faults }

        // A fleet in memory promises more. Either it refuses the Connect by the fault that was planned in its place, or
        // the wire's session is new. Then no transaction is open in it. What is planned for the wire goes with it.
        ensures planned { is_memory (answer_of result) ≡ false
            → answer_of result ≡ unwrap_or (connect_fault number self.old) Done }
        ensures fresh { IfOk result (λ w. w ≡ new_wire number (planned_for number self.old)) }
        ensures faults { self.new.faults ≡ faults_after self.old.faults (answer_of result) }
    {
        let planned = match self.log.admit(self.rt.alloc(), number) {
            Ok(planned) => planned,
            Err(refused) => return Err(refused),
        };
        let Ok(wire) = MemWire::open(&self.rt, &self.store, number, planned) else {
            return Err(self.log.note_want(number));
        };
        match self.log.note_connected(number) {
            Ok(()) => Ok(wire),
            Err(Memory) => Err(self.log.note_want(number)),
        }
    }

    fn retire(&mut self, number: u32, wire: MemWire<R>) {
        self.log.retire(number, wire.into_log());
    }
}

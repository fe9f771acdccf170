ghost use Rattle.std.specs.Prelude.{◌≡◌, ◌≤◌, true, false, if◌then◌else◌, IfOk, OnOk, OnErr};
ghost use Rattle.dsql_driver.specs.Fits.{is_memory};
ghost use Rattle.dsql_driver_session.specs.Session.{IsSound};
ghost use Rattle.dsql_mem_store.specs.Entries.{AreAscending};
ghost use Rattle.dsql_mem.specs.Wire.{new_wire, comes_of, after_call, after_plan, after_want, CarriesOut};

use dsql_driver::{Answered, DriverCall, Planned};
use dsql_mem_calls::step_unless;
use dsql_mem_plans::{Plan, WireLog};
use dsql_mem_session::MemSession;
use dsql_mem_store::Store;
use dsql_value::Memory;
use std::alloc::Global;
use std::marker::Model;

/// What a wire has for itself: its session and its log.
#[derive(Drop)]
pub(crate) struct Connection {
    session: MemSession,
    log: WireLog,
}

impl Model for Connection {
    ghost use Rattle.dsql_mem.specs.Wire.{WireState};

    ghost Value = { WireState };

    ghost view = { λ c. record {
      session = c.session;
      told = c.log.told;
      planned = c.log.planned;
      faults = c.log.faults;
    } };
}

impl Connection {
    /// Returns a connection that has heard only its Connect, with what its fleet planned for it.
    pub(crate) fn new(alloc: Global, number: u32, planned: Vec<Plan>) -> Result<Connection, Memory>
        ensures { IfOk result (λ connection. connection ≡ new_wire number planned.items) }
    {
        let log = WireLog::new(alloc, number, planned)?;
        Ok(Connection {
            session: MemSession::new(alloc),
            log,
        })
    }

    /// Does nothing. Its contract shows its callers that the numbers of the connection's session are sound.
    fn vouch(&self)
        ensures { IsSound self.now.session.live }
    {
        self.session.live.vouch();
    }

    /// Answers a call on a store. It answers Memory if there is no memory, and records that.
    pub(crate) fn answer(&mut self, alloc: Global, store: &mut Store, call: &DriverCall) -> Answered
        ensures copied { result.copy ≡ result.answer }
        ensures carried_out { is_memory result.answer ≡ false
            → CarriesOut store.old call.now result.answer self.old self.new }
        ensures sound { IsSound self.old.session.live }
        ensures ascending { AreAscending store.old }
        ensures wants { is_memory result.answer ≡ true → self.new ≡ after_want call.now self.old }
        ensures store { store.new
            ≡ (if is_memory result.answer then store.old else (comes_of store.old self.old call.now).store) }
        ensures counted { self.old.faults ≤ self.new.faults }
    {
        self.vouch();
        store.vouch();
        match self.hear(alloc, store, call) {
            Ok(answered) => answered,
            Err(Memory) => self.log.note_want(call),
        }
    }

    /// Answers a call on a store and records it. Nothing can fail after the call was carried out.
    fn hear(
        &mut self,
        alloc: Global,
        store: &mut Store,
        call: &DriverCall,
    ) -> Result<Answered, Memory>
        ensures answer { IfOk result (λ answered. answered.answer ≡ (comes_of store.old self.old call.now).answer) }
        ensures copied { IfOk result (λ answered. answered.copy ≡ answered.answer) }
        ensures ok { OnOk result (self.new ≡ after_call store.old self.old call.now) }
        ensures err { OnErr result (self.new ≡ self.old) }
        ensures store { OnOk result (store.new ≡ (comes_of store.old self.old call.now).store) }
        ensures store_stays { OnErr result (store.new ≡ store.old) }
        ensures counted { self.old.faults ≤ self.new.faults }
    {
        let fault = self.log.fault_due(call)?;
        let answered = step_unless(fault, alloc, store, &mut self.session, call)?;
        self.log.note(call, &answered.answer);
        Ok(answered)
    }

    /// Records a planned fault. It takes all the room first.
    pub(crate) fn plan(&mut self, nth: u32, what: Planned) -> Result<(), Memory>
        ensures ok { OnOk result (self.new ≡ after_plan (nth, what) self.old) }
        ensures err { OnErr result (self.new ≡ self.old) }
    {
        self.log.plan(nth, what)
    }

    /// Returns the connection's log.
    pub(crate) fn into_log(self) -> WireLog
        ensures { result.told ≡ self.told }
    {
        let Connection { log, .. } = self;
        log
    }
}

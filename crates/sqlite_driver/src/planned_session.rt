ghost use Rattle.std.specs.Prelude.{◌≡◌, ◌≤◌, true, false, IfOk, OnOk, OnErr};
ghost use Rattle.dsql_driver.specs.Fits.{is_memory};
ghost use Rattle.dsql_mem_plans.specs.WireLogs.{fault_due};
ghost use Rattle.sqlite_driver.specs.Used.{LeavesAlone, UsesUnless};
ghost use Rattle.sqlite_driver.specs.Wire.{Hears, ServesUnless, new_wire, after_plan, after_want};
ghost use Rattle.dsql_driver_session.specs.Session.{IsSound};

use crate::calls::carry_out;
use crate::database::Database;
use dsql_driver::{Answered, DriverAnswer, DriverCall, Planned};
use dsql_driver_session::{Session, copies_of};
use dsql_mem_plans::{Plan, WireLog};
use dsql_value::Memory;
use std::alloc::Global;
use std::marker::Model;

/// A session with the faults that are planned in place of its answers, and with the wire's report.
#[derive(Drop)]
pub(crate) struct PlannedSession {
    session: Session,
    log: WireLog,
}

impl Model for PlannedSession {
    ghost use Rattle.sqlite_driver.specs.Wire.{WireState};

    ghost Value = { WireState };

    ghost view = { λ p. record { session = p.session; log = p.log } };
}

impl PlannedSession {
    /// Returns the session of a wire that has heard only its Connect, with what its fleet planned for it.
    pub(crate) fn new(
        alloc: Global,
        number: u32,
        planned: Vec<Plan>,
    ) -> Result<PlannedSession, Memory>
        ensures { IfOk result (λ session. session ≡ new_wire number planned.items) }
    {
        let log = WireLog::new(alloc, number, planned)?;
        Ok(PlannedSession {
            session: Session::new(alloc),
            log,
        })
    }

    /// Does nothing. Its contract shows its callers that the session's tables are sound.
    fn vouch(&self)
        ensures { IsSound self.now.session }
    {
        self.session.vouch();
    }

    /// Answers a call. It answers Memory if there is no memory and nothing has been done, and records that. If a
    /// planned fault takes the call's place, nothing is done either.
    pub(crate) fn answer(
        &mut self,
        alloc: Global,
        database: &mut Database,
        call: &DriverCall,
    ) -> Answered
        ensures copied { result.copy ≡ result.answer }
        ensures heard { is_memory result.answer ≡ false → Hears call.now result self.old self.new }
        ensures sound { IsSound self.old.session }
        ensures wants { is_memory result.answer ≡ true → self.new ≡ after_want call.now self.old }
        ensures used { is_memory result.answer ≡ false → UsesUnless (fault_due call.now self.old.log)
            self.old.log.told.number call.now result.answer self.old.session self.new.session
            database.old database.new }
        ensures undone { is_memory result.answer ≡ true → LeavesAlone database.old database.new }
        ensures counted { self.old.log.faults ≤ self.new.log.faults }
    {
        self.vouch();
        match self.hear(alloc, database, call) {
            Ok(answered) => answered,
            Err(Memory) => self.log.note_want(call),
        }
    }

    /// Answers a call and records it. Fails only for want of memory, and then nothing has been done.
    fn hear(
        &mut self,
        alloc: Global,
        database: &mut Database,
        call: &DriverCall,
    ) -> Result<Answered, Memory>
        ensures heard { IfOk result (λ answered. Hears call.now answered self.old self.new) }
        ensures err { OnErr result (self.new ≡ self.old) }
        ensures used { IfOk result (λ answered. UsesUnless (fault_due call.now self.old.log)
            self.old.log.told.number call.now answered.answer self.old.session self.new.session
            database.old database.new) }
        ensures undone { OnErr result (LeavesAlone database.old database.new) }
        ensures counted { self.old.log.faults ≤ self.new.log.faults }
    {
        let fault = self.log.fault_due(call)?;
        let who = self.log.number();
        let answered = carry_out_unless(fault, alloc, &mut self.session, database, who, call)?;
        self.log.note(call, &answered.answer);
        Ok(answered)
    }

    /// Records a planned fault. It takes all the room first.
    pub(crate) fn plan(&mut self, nth: u32, what: Planned) -> Result<(), Memory>
        ensures ok { OnOk result (self.new ≡ after_plan (nth, what) self.old) }
        ensures err { OnErr result (self.new ≡ self.old) }
    {
        self.log.plan(nth, what)
    }

    /// Returns the wire's log.
    pub(crate) fn into_log(self) -> WireLog
        ensures { result ≡ self.log }
    {
        let PlannedSession { log, .. } = self;
        log
    }
}

/// Answers a call with the fault that takes its place, or otherwise carries it out. Fails only for want of memory, and
/// then nothing has been done.
fn carry_out_unless(
    fault: Option<DriverAnswer>,
    alloc: Global,
    session: &mut Session,
    database: &mut Database,
    who: u32,
    call: &DriverCall,
) -> Result<Answered, Memory>
    ensures served { IfOk result (λ answered. ServesUnless fault call.now answered session.old session.new) }
    ensures used { IfOk result (λ answered. UsesUnless fault who call.now answered.answer session.old session.new
        database.old database.new) }
    ensures stays { OnErr result (session.new ≡ session.old) }
    ensures undone { OnErr result (LeavesAlone database.old database.new) }
{
    match fault {
        Some(fault) => {
            let answered = copies_of(fault)?;
            Ok(answered)
        }
        None => carry_out(alloc, session, database, who, call),
    }
}

ghost use Rattle.std.specs.Prelude.{◌≡◌, ◌+◌, ◌<◌, ◌≤◌, length, IfOk, OnOk, OnErr};
ghost use Rattle.dsql_mem_plans.specs.Log.{told_of};
ghost use Rattle.dsql_mem_plans.specs.WireLogs.{new_wire_log, fault_due, with_answer, with_want, with_planned};

use crate::faults::faults_after;
use crate::log::Log;
use crate::plans::{Plan, copied, fault_at};
use crate::roll::Roll;
use dsql_driver::{Answered, DriverAnswer, DriverCall, Planned};
use dsql_value::Memory;
use std::alloc::Global;
use std::marker::Model;

/// What a wire keeps beside its session: its log, its planned faults and their count, and the room for its entry among
/// the retired wires.
#[derive(Drop)]
pub struct WireLog {
    log: Log,
    planned: Vec<Plan>,
    faults: u64,
    room: Box<Roll>,
}

impl Model for WireLog {
    ghost use Rattle.dsql_mem_plans.specs.Log.{told_of};
    ghost use Rattle.dsql_mem_plans.specs.WireLogs.{WireLogState};

    ghost Value = { WireLogState };

    ghost view = { λ l. record { told = told_of l.log; planned = l.planned.items; faults = l.faults } };
}

impl WireLog {
    /// Returns the log of a wire that has heard only its Connect, with what its fleet planned for it.
    pub fn new(alloc: Global, number: u32, planned: Vec<Plan>) -> Result<WireLog, Memory>
        ensures { IfOk result (λ log. log ≡ new_wire_log number planned.items) }
    {
        let log = Log::new(alloc, number);
        let room = Box::new(alloc, Roll::Empty)?;
        Ok(WireLog {
            log,
            planned,
            faults: 0,
            room,
        })
    }

    /// Returns the number of the wire.
    pub fn number(&self) -> u32
        ensures { result ≡ self.now.told.number }
    {
        self.log.number
    }

    /// Returns the fault that takes the place of the wire's next driver call, if one was planned that fits it. After
    /// that the call can be noted. Fails if memory is lacking, or if the wire has heard as many driver calls as can be
    /// counted.
    pub fn fault_due(&self, call: &DriverCall) -> Result<Option<DriverAnswer>, Memory>
        ensures fault { IfOk result (λ fault. fault ≡ fault_due call.now self.now) }
        ensures room { OnOk result (length self.now.told.calls + 1 < usize.MAX) }
    {
        self.log.check_room()?;
        fault_at(self.log.next_call(), call, self.planned.as_slice())
    }

    /// Notes the next driver call, for which there is room, with its answer. It takes no memory.
    pub fn note(&mut self, call: &DriverCall, answer: &DriverAnswer)
        requires { length self.old.told.calls + 1 < usize.MAX }
        ensures log { self.new ≡ with_answer call.now answer.now self.old }
        ensures counted { self.old.faults ≤ self.new.faults }
    {
        self.log.note(call, answer);
        self.faults = faults_after(self.faults, answer);
    }

    /// Notes that the next driver call is answered Memory, and returns that answer. It takes no memory.
    pub fn note_want(&mut self, call: &DriverCall) -> Answered
        ensures answer { result.answer ≡ DriverAnswer.Memory }
        ensures copy { result.copy ≡ DriverAnswer.Memory }
        ensures noted { self.new ≡ with_want call.now self.old }
    {
        self.log.note_want(call);
        Answered {
            answer: DriverAnswer::Memory,
            copy: DriverAnswer::Memory,
        }
    }

    /// Records a planned fault. It takes all the room first.
    pub fn plan(&mut self, nth: u32, what: Planned) -> Result<(), Memory>
        ensures ok { OnOk result (self.new ≡ with_planned (nth, what) self.old) }
        ensures err { OnErr result (self.new ≡ self.old) }
    {
        let noted = copied(&what)?;
        self.planned.reserve(1)?;
        self.log.plan(nth, noted)?;
        self.planned.push_reserved((nth, what));
        Ok(())
    }

    /// Returns the inner log and the room among the retired wires.
    pub(crate) fn into_parts(self) -> (Log, Box<Roll>)
        ensures { told_of result.0 ≡ self.told }
    {
        let WireLog { log, room, .. } = self;
        (log, room)
    }
}

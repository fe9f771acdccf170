ghost use Rattle.std.specs.Prelude.{◌≡◌, ◌≤◌, None, Some, false, IfOk, IfErr, OnOk, OnErr};
ghost use Rattle.dsql_driver.specs.Fits.{is_memory};
ghost use Rattle.dsql_driver.specs.Wires.{answer_of, preferred_after};
ghost use Rattle.dsql_mem_plans.specs.Fleets.{new_fleet, after_wire_plan, planned_for, connect_fault, with_connect, after_want, after_connect, after_retire};

use crate::faults::faults_after;
use crate::plans::{Plan, Refusal, WirePlanMade, connect_refusal, plans_for};
use crate::roll::Roll;
use crate::wire_log::WireLog;
use dsql_driver::{Caps, DriverAnswer, Planned, Refused};
use dsql_value::Memory;
use dsql_value_past::Past;
use std::alloc::Global;
use std::marker::Model;

/// What a fleet keeps beside its database: what it was asked for, its report, and the count of its faults. The Connects
/// that were answered Memory are for proofs only.
#[derive(Drop)]
pub struct FleetLog {
    preferred: Option<Caps>,
    preferences: u64,
    connects: Vec<(u32, DriverAnswer)>,
    plans: Vec<WirePlanMade>,
    retired: Roll,
    wanted: Past<u32>,
    faults: u64,
}

impl Model for FleetLog {
    ghost use Rattle.std.specs.Prelude.{reverse};
    ghost use Rattle.dsql_mem_plans.specs.Fleets.{FleetState};
    ghost use Rattle.dsql_mem_plans.specs.Roll.{retired_of};

    ghost Value = { FleetState };

    ghost view = { λ f. record {
      preferred = record { last = f.preferred; times = f.preferences };
      told = record {
        connects = f.connects.items;
        plans = f.plans.items;
        retired = retired_of f.retired;
        wanted = reverse f.wanted.items;
      };
      faults = f.faults;
    } };
}

impl FleetLog {
    /// Returns the log of a fleet that was asked for nothing.
    pub fn new(alloc: Global) -> FleetLog
        ensures { result ≡ new_fleet }
    {
        FleetLog {
            preferred: None,
            preferences: 0,
            connects: Vec::new(alloc),
            plans: Vec::new(alloc),
            retired: Roll::Empty,
            wanted: Past::new(),
            faults: 0,
        }
    }

    /// Returns the capabilities that the fleet was asked for last, if it was asked.
    pub fn preferred(&self) -> Option<Caps>
        ensures { result ≡ self.now.preferred.last }
    {
        self.preferred
    }

    /// Records that the fleet was asked for these capabilities.
    pub fn prefer(&mut self, caps: Caps)
        ensures { self.new ≡ record self.old { preferred = preferred_after caps self.old.preferred } }
    {
        self.preferred = Some(caps);
        self.preferences = self.preferences.saturating_add(1);
    }

    /// Records a planned fault in place of the answer to the nth call on a wire that isn't connected yet.
    pub fn plan(&mut self, wire: u32, nth: u32, what: Planned) -> Result<(), Memory>
        ensures planned { OnOk result (self.new ≡ after_wire_plan (wire, (nth, what)) self.old) }
        ensures stays { OnErr result (self.new ≡ self.old) }
    {
        self.plans.push((self.connects.len(), (wire, (nth, what))))?;
        Ok(())
    }

    /// Returns what is planned for a wire that is to be opened. If a fault stands in place of its Connect, records
    /// that Connect and fails with the fault. Without memory it records that, and fails with it.
    pub fn admit(&mut self, alloc: Global, number: u32) -> Result<Vec<Plan>, Refused>
        ensures ok { OnOk result (self.new ≡ self.old) }
        ensures planned { IfOk result (λ plans. plans.items ≡ planned_for number self.old) }
        ensures admitted { OnOk result (connect_fault number self.old ≡ None) }
        ensures refused { IfErr result (λ r. self.new
            ≡ after_connect number (answer_of {W = Unit {0}} (Err r)) self.old) }
        ensures fault { IfErr result (λ r. is_memory (answer_of {W = Unit {0}} (Err r)) ≡ false
            → connect_fault number self.old ≡ Some (answer_of {W = Unit {0}} (Err r))) }
        ensures counted { self.old.faults ≤ self.new.faults }
    {
        let Ok(plans) = plans_for(alloc, number, self.plans.as_slice()) else {
            return Err(self.note_want(number));
        };
        match connect_refusal(plans.as_slice()) {
            Ok(None) => Ok(plans),
            Ok(Some(refusal)) => Err(self.refuse(number, refusal)),
            Err(Memory) => Err(self.note_want(number)),
        }
    }

    /// Records a Connect that is refused, and returns why. Without memory it records that, and returns it.
    fn refuse(&mut self, number: u32, refusal: Refusal) -> Refused
        requires told { answer_of {W = Unit {0}} (Err refusal.refused) ≡ refusal.answer }
        requires answered { is_memory refusal.answer ≡ false }
        ensures refused { self.new ≡ after_connect number (answer_of {W = Unit {0}} (Err result)) self.old }
        ensures fault { is_memory (answer_of {W = Unit {0}} (Err result)) ≡ false
            → answer_of {W = Unit {0}} (Err result) ≡ refusal.answer }
        ensures counted { self.old.faults ≤ self.new.faults }
    {
        let Refusal { refused, answer } = refusal;
        if self.connects.reserve(1).is_err() {
            return self.note_want(number);
        }
        self.faults = faults_after(self.faults, &answer);
        self.connects.push_reserved((number, answer));
        refused
    }

    /// Records a Connect that was answered Done.
    pub fn note_connected(&mut self, number: u32) -> Result<(), Memory>
        ensures ok { OnOk result (self.new ≡ with_connect number DriverAnswer.Done self.old) }
        ensures err { OnErr result (self.new ≡ self.old) }
    {
        self.connects.push((number, DriverAnswer::Done))?;
        Ok(())
    }

    /// Records that a Connect is answered Memory, and returns that refusal. It takes no memory.
    pub fn note_want(&mut self, number: u32) -> Refused
        ensures want { result ≡ Refused.Memory }
        ensures noted { self.new ≡ after_want number self.old }
    {
        self.wanted = self.wanted.then(&number);
        Refused::Memory
    }

    /// Records that the fleet was given back a wire with this log. It takes no memory.
    pub fn retire(&mut self, number: u32, log: WireLog)
        ensures { self.new ≡ after_retire number log.told self.old }
    {
        let (log, room) = log.into_parts();
        let before = std::mem::replace(&mut self.retired, Roll::Empty);
        self.retired = before.enter(number, log, room);
    }
}

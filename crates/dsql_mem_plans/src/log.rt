ghost use Rattle.std.specs.Prelude.{◌≡◌, ◌+◌, ◌<◌, ◌≤◌, length, OnOk, OnErr};
ghost use Rattle.std.below.core.specs.declared.int.usize.TheConstants.{MAX};
ghost use Rattle.dsql_driver.specs.Wires.{newly_told, with_call, with_plan, with_wanted};

use crate::plans::PlanMade;
use dsql_driver::{DriverAnswer, DriverCall, Planned};
use dsql_value::Memory;
use dsql_value_past::Past;
use std::alloc::Global;

/// What a wire was asked: its number, the count of driver calls that it heard, and these with their answers for
/// proofs only. It also holds the faults that were planned on the wire, oldest first, each with the count of
/// driver calls heard by then. The driver calls that were answered Memory are for proofs only as well.
#[derive(Drop)]
pub struct Log {
    pub number: u32,
    pub count: usize,
    pub heard: Past<(DriverCall, DriverAnswer)>,
    pub plans: Vec<PlanMade>,
    pub wanted: Past<DriverCall>,
    pub ghost counted: { (count ≡ length heard.items) × (count < MAX) },
}

impl Log {
    ghost use Rattle.dsql_mem_plans.specs.Log.{told_of};

    /// Returns the log of a wire that has heard only its `Connect`.
    pub fn new(alloc: Global, number: u32) -> Log
        ensures { told_of result ≡ newly_told number }
    {
        Log {
            number,
            count: 1,
            heard: Past::new().then_pair(&DriverCall::Connect, &DriverAnswer::Done),
            plans: Vec::new(alloc),
            wanted: Past::new(),
        }
    }

    /// Returns the number of the next driver call that the wire hears.
    pub fn next_call(&self) -> usize
        ensures { result ≡ length (told_of self.now).calls + 1 }
    {
        self.count + 1
    }

    /// Returns `Ok` if there is room for the next driver call. Fails with `Memory` only if the wire has heard
    /// as many driver calls as can be counted.
    pub fn check_room(&self) -> Result<(), Memory>
        ensures ok { OnOk result (length (told_of self.now).calls + 1 < usize.MAX) }
        ensures err { OnErr result (usize.MAX ≤ length (told_of self.now).calls + 1) }
    {
        if self.next_call() < usize::MAX {
            Ok(())
        } else {
            Err(Memory)
        }
    }

    /// Notes the next driver call, for which there is room, with its answer. It takes no memory.
    pub fn note(&mut self, call: &DriverCall, answer: &DriverAnswer)
        requires { length (told_of self.old).calls + 1 < usize.MAX }
        ensures { told_of self.new ≡ with_call (call.now, answer.now) (told_of self.old) }
    {
        self.heard = self.heard.then_pair(call, answer);
        self.count += 1;
    }

    /// Notes that the next driver call is answered Memory. It takes no memory.
    pub fn note_want(&mut self, call: &DriverCall)
        ensures { told_of self.new ≡ with_wanted call.now (told_of self.old) }
    {
        self.wanted = self.wanted.then(call);
    }

    /// Enters a planned fault after the driver calls that were heard so far. Fails only with `Memory`, and then
    /// leaves the log as it was.
    pub fn plan(&mut self, nth: u32, what: Planned) -> Result<(), Memory>
        ensures ok { OnOk result (told_of self.new ≡ with_plan (nth, what) (told_of self.old)) }
        ensures err { OnErr result (told_of self.new ≡ told_of self.old) }
    {
        self.plans.push((self.count, (nth, what)))?;
        Ok(())
    }
}

//! The driver: it opens connections to the fixed table.
ghost use Rattle.std.specs.Prelude.{◌≡◌, None};
ghost use Rattle.fixed_answers.specs.Fleet.{own_caps};

use crate::wire::FixedWire;
use dsql_driver::{Caps, Fleet, Planned, Refused};
use dsql_value::Memory;
use std::alloc::Global;

/// The driver executes and queries a text at once, and can do nothing else.
const CAPS: Caps = Caps {
    fast_exec: true,
    fast_query: true,
    begin_options: false,
    named: false,
    pinger: false,
    resetter: false,
    validator: false,
};

/// The driver. It keeps which abilities it was asked to have, and how often, because the layer counts that.
#[derive(Drop)]
pub(crate) struct FixedFleet {
    alloc: Global,
    preferred: Option<Caps>,
    preferences: u64,
}

impl FixedFleet {
    /// Returns a driver that was asked for nothing yet.
    pub(crate) fn new(alloc: Global) -> FixedFleet
        ensures last { result.preferred ≡ None }
        ensures times { result.preferences ≡ 0 }
    {
        FixedFleet {
            alloc,
            preferred: None,
            preferences: 0,
        }
    }
}

impl Fleet for FixedFleet {
    type Wire = FixedWire;

    ghost ability = { λ _. own_caps };

    ghost preferred = { λ f. record { last = f.preferred; times = f.preferences } };

    ghost told = { λ _. None };

    ghost faults = { λ _. 0 };

    fn caps(&self) -> Caps {
        CAPS
    }

    // Changes nothing that the driver can do.
    fn prefer(&mut self, caps: Caps) {
        self.preferred = Some(caps);
        self.preferences = self.preferences.saturating_add(1);
    }

    fn plan(&mut self, _wire: u32, _nth: u32, _what: Planned) -> Result<(), Memory> {
        Ok(())
    }

    fn connect(&mut self, _number: u32) -> Result<FixedWire, Refused> {
        Ok(FixedWire::new(self.alloc))
    }

    fn retire(&mut self, _number: u32, _wire: FixedWire) {}
}

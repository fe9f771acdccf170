//! A gate and a driver that hold calls until two of them are under way at once.
ghost use Rattle.std.specs.Prelude.{◌≡◌};

use dsql_driver::{Answered, Caps, DriverCall, Fleet, Gate, Planned, Refused, Wire};
use dsql_value::Memory;
use std::sync::atomic::{AtomicBool, Ordering};
use std::thread::yield_now;

/// How often one looks for the other before it gives up.
const TURNS: u32 = 1_000_000;

/// Two that wait for each other. They are numbered 1 and 2.
#[derive(Drop)]
pub(super) struct Meeting {
    first: AtomicBool,
    second: AtomicBool,
    missed: AtomicBool,
}

impl Meeting {
    pub(super) fn new() -> Meeting {
        Meeting {
            first: AtomicBool::new(false),
            second: AtomicBool::new(false),
            missed: AtomicBool::new(false),
        }
    }

    /// Holds the one of this number until both are there, or one gave up. Lets all others pass.
    fn hold(&self, number: u32) {
        match number {
            1 => self.first.store(true, Ordering::SeqCst),
            2 => self.second.store(true, Ordering::SeqCst),
            _ => return,
        }
        for _ in 0..TURNS {
            if self.is_met() || self.missed.load(Ordering::SeqCst) {
                return;
            }
            yield_now();
        }
        self.missed.store(true, Ordering::SeqCst);
    }

    fn is_met(&self) -> bool {
        self.first.load(Ordering::SeqCst) && self.second.load(Ordering::SeqCst)
    }

    /// Is true if the two met, and none of them gave up before.
    pub(super) fn took_place(&self) -> bool {
        self.is_met() && !self.missed.load(Ordering::SeqCst)
    }
}

/// Holds the first driver calls of clients 1 and 2 until both are there.
impl Gate for Meeting {
    fn before(&self, client: u8, _call: u32) {
        self.hold(u32::from(client));
    }
}

/// A driver whose wires 1 and 2 answer their first call after Connect once both have had it.
#[derive(Drop)]
pub(super) struct MeetingFleet<'m, F: Fleet> {
    pub fleet: F,
    pub meeting: &'m Meeting,
}

/// A connection of such a driver.
pub(super) struct MeetingWire<'m, W: Wire> {
    wire: W,
    number: u32,
    meeting: &'m Meeting,
}

impl<'m, W: Wire> Wire for MeetingWire<'m, W> {
    ghost told = { λ w. W.told w.wire };

    ghost faults = { λ w. W.faults w.wire };

    ghost handles = { λ w. W.handles w.wire };

    ghost cursors = { λ w. W.cursors w.wire };

    fn call(&mut self, call: &DriverCall) -> Answered {
        self.meeting.hold(self.number);
        self.wire.call(call)
    }

    fn plan(&mut self, nth: u32, what: Planned) -> Result<(), Memory> {
        self.wire.plan(nth, what)
    }
}

impl<'m, F: Fleet> Fleet for MeetingFleet<'m, F> {
    type Wire = MeetingWire<'m, F::Wire>;

    ghost ability = { λ f. F.ability f.fleet };

    ghost preferred = { λ f. F.preferred f.fleet };

    ghost told = { λ f. F.told f.fleet };

    ghost faults = { λ f. F.faults f.fleet };

    fn caps(&self) -> Caps {
        self.fleet.caps()
    }

    fn prefer(&mut self, caps: Caps) {
        self.fleet.prefer(caps);
    }

    fn plan(&mut self, wire: u32, nth: u32, what: Planned) -> Result<(), Memory> {
        self.fleet.plan(wire, nth, what)
    }

    fn connect(&mut self, number: u32) -> Result<MeetingWire<'m, F::Wire>, Refused> {
        match self.fleet.connect(number) {
            Ok(wire) => Ok(MeetingWire {
                wire,
                number,
                meeting: self.meeting,
            }),
            Err(refused) => Err(refused),
        }
    }

    fn retire(&mut self, number: u32, wire: MeetingWire<'m, F::Wire>) {
        let MeetingWire {
            wire,
            number: _,
            meeting: _,
        } = wire;
        self.fleet.retire(number, wire);
    }
}

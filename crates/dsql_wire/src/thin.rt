ghost use Rattle.std.specs.Prelude.{◌≡◌, ◌↔◌, false, IsTrue, IfOk, IfSome};
ghost use Rattle.dsql_tenure_journal.specs.Readers.{is_empty};
ghost use Rattle.dsql_tenure.specs.Beginnings.{IsBeginningOf};
ghost use Rattle.dsql_wire.specs.Calling.{Calls, PlansFault};
ghost use Rattle.dsql_wire.specs.Journaled.{Agrees, MayBeSent};
ghost use Rattle.dsql_wire.specs.Told.{TellsOf};

use crate::fault::WireFault;
use crate::heard::Heard;
use crate::journal::JudgedJournal;
use crate::permit::{answered, is_memory};
use dsql_driver::{Answered, DriverAnswer, Planned, Wire};
use dsql_tenure_journal::Permit;
use dsql_value::Memory;
use std::marker::Model;

/// A driver's wire with its connection's judge. The journal isn't kept: only proofs read it. Contracts see the
/// connection's number, the journal with the newest entry first, for how many entries the judge has memory, and the
/// driver's wire. A thin wire can't be dropped; it must be retired.
pub struct ThinWire<W: Wire> {
    wire: W,
    journal: JudgedJournal,
}

impl<W: Wire> Model for ThinWire<W> {
    ghost use Rattle.dsql_wire.specs.Journaled.{Journaled, Agrees};

    ghost Value = { Journaled W };

    ghost view = { λ t. record {
      conn = t.journal.conn;
      journal = t.journal.journal;
      spare = t.journal.spare;
      wire = t.wire;
    } };

    ghost invariant = { λ t. Agrees (W.told t.wire) (W.handles t.wire)
        (W.cursors t.wire) t.journal.conn t.journal.journal };
}

/// What is left of a retired thin wire: its connection's number and the driver's wire.
pub struct RetiredThin<W> {
    pub number: u32,
    pub wire: W,
}

/// An entry, with a second answer equal to the one in it.
#[derive(Drop)]
pub(crate) struct HeardTwice {
    pub(crate) heard: Heard,
    pub(crate) copy: DriverAnswer,
}

impl<W: Wire> ThinWire<W> {
    /// Returns the wire of a connection that has exactly this journal.
    pub(crate) fn of(wire: W, journal: JudgedJournal) -> ThinWire<W>
        requires { Agrees (W.told wire) (W.handles wire) (W.cursors wire) journal.conn journal.journal }
        ensures conn { result.conn ≡ journal.conn }
        ensures journal { result.journal ≡ journal.journal }
        ensures spare { result.spare ≡ journal.spare }
        ensures wire { result.wire ≡ wire }
    {
        ThinWire { wire, journal }
    }

    /// Returns whether the journal's judge lets the permit be sent.
    pub(crate) fn may_send(&self, permit: &Permit) -> bool
        ensures { IsTrue result ↔ MayBeSent self.now.conn self.now.journal permit.now }
    {
        self.journal.may_send(permit)
    }

    /// Makes one driver call that may be sent, and has the judge record the entry that its answer makes. The driver is
    /// called once at most.
    pub(crate) fn call(&mut self, permit: Permit) -> Result<HeardTwice, WireFault>
        requires { MayBeSent self.old.conn self.old.journal permit }
        ensures calls { Calls (λ (it : HeardTwice). it.heard) W.Wire permit self.old self.new result }
        ensures copied { IfOk result (λ it. it.copy ≡ it.heard.answer) }
    {
        let Ok(()) = self.journal.make_room() else {
            return Err(WireFault::Memory(permit));
        };
        let Answered { answer, copy } = self.wire.call(&permit.call);
        if is_memory(&answer) {
            return Err(WireFault::Memory(permit));
        }
        let entry = answered(permit, answer);
        self.journal.note(&entry);
        Ok(HeardTwice {
            heard: Heard::new(entry),
            copy,
        })
    }

    /// Makes one driver call if the journal's judge allows it, and has the judge record the entry that its
    /// answer makes. Fails with `Stray` if the judge doesn't allow it. Fails with `Memory` if the driver answers
    /// Memory, or if the judge has no room for an entry and finds no memory for it.
    pub fn perform(&mut self, permit: Permit) -> Result<Heard, WireFault>
        ensures { Calls (λ heard. heard) W.Wire permit self.old self.new result }
    {
        if !self.may_send(&permit) {
            return Err(WireFault::Stray(permit));
        }
        let HeardTwice { heard, copy } = self.call(permit)?;
        Ok(heard.with_second(copy))
    }

    /// Plans a fault in place of the answer to the nth call on this wire. The Connect is the first call.
    pub fn plan(&mut self, nth: u32, what: Planned) -> Result<(), Memory>
        ensures { PlansFault W.Wire (nth, what) self.old self.new result }
    {
        self.wire.plan(nth, what)
    }

    /// Returns the connection's number. If the wire reports its calls, its report is exactly its journal, which
    /// began well.
    pub(crate) fn number(&self) -> u32
        ensures number { result ≡ self.now.conn }
        ensures beginning { IsBeginningOf self.now.conn self.now.journal }
        ensures started { is_empty self.now.journal ≡ false }
        ensures told { IfSome (W.told self.now.wire) (TellsOf self.now.conn self.now.journal) }
    {
        self.journal.number()
    }

    /// Returns the driver's wire. It takes no memory.
    pub fn retire(self) -> RetiredThin<W>
        ensures number { result.number ≡ self.conn }
        ensures wire { result.wire ≡ self.wire }
        ensures beginning { IsBeginningOf self.conn self.journal }
        ensures told { IfSome (W.told self.wire) (TellsOf self.conn self.journal) }
    {
        let ThinWire { wire, journal } = self;
        RetiredThin {
            number: journal.number(),
            wire,
        }
    }
}

ghost use Rattle.std.specs.Prelude.{◌≡◌, ◌<◌, false, reverse, vec_capacity, vec_len, IfOk, IfSome, OnOk};
ghost use Rattle.dsql_tenure_journal.specs.Readers.{is_empty};
ghost use Rattle.dsql_tenure.specs.Beginnings.{IsBeginningOf};
ghost use Rattle.dsql_wire.specs.Calling.{Calls, PlansFault};
ghost use Rattle.dsql_wire.specs.Journaled.{keeping};
ghost use Rattle.dsql_wire.specs.Told.{TellsOf};

use crate::fault::WireFault;
use crate::heard::Heard;
use crate::permit::{answered, copy_of};
use crate::thin::{HeardTwice, RetiredThin, ThinWire};
use dsql_driver::{Planned, Wire};
use dsql_tenure_journal::{Entry, Permit};
use dsql_value::Memory;
use std::marker::Model;

/// A driver's wire with its connection's journal, which is kept. Contracts see the connection's number, the
/// journal with the newest entry first, and the driver's wire. They see no room, since each entry takes memory for a
/// copy of its permit. A journaled wire can't be dropped; it must be retired.
pub struct JournaledWire<W: Wire> {
    thin: ThinWire<W>,
    entries: Vec<Entry>,
}

impl<W: Wire> Model for JournaledWire<W> {
    ghost use Rattle.std.specs.Prelude.{◌≡◌, reverse};
    ghost use Rattle.dsql_wire.specs.Journaled.{Journaled, keeping};

    ghost Value = { Journaled W };

    ghost view = { λ j. keeping j.thin };

    ghost invariant = { λ j. j.thin.journal ≡ reverse j.entries.items };
}

/// What is left of a retired journaled wire: its connection's number, the journal with the oldest entry first,
/// and the driver's wire.
pub struct Retired<W> {
    pub number: u32,
    pub journal: Vec<Entry>,
    pub wire: W,
}

impl<W: Wire> JournaledWire<W> {
    /// Returns the wire of a connection that has exactly these entries, oldest first.
    pub(crate) fn of(thin: ThinWire<W>, entries: Vec<Entry>) -> JournaledWire<W>
        requires { thin.journal ≡ reverse entries.items }
        ensures { result ≡ keeping thin }
    {
        JournaledWire { thin, entries }
    }

    /// Makes one driver call if the journal's judge allows it, and keeps the entry that its answer makes. Fails
    /// with `Stray` if the judge doesn't allow it, and with `Memory` if there is no memory.
    pub fn perform(&mut self, permit: Permit) -> Result<Heard, WireFault>
        ensures { Calls (λ heard. heard) W.Wire permit self.old self.new result }
    {
        if !self.thin.may_send(&permit) {
            return Err(WireFault::Stray(permit));
        }
        let Ok(noted) = make_room(&mut self.entries, &permit) else {
            return Err(WireFault::Memory(permit));
        };
        match self.thin.call(permit) {
            Ok(HeardTwice { heard, copy }) => {
                self.entries.push_reserved(answered(noted, copy));
                Ok(heard)
            }
            Err(fault) => Err(fault),
        }
    }

    /// Returns the journal, oldest entry first.
    pub fn journal(&self) -> &[Entry]
        ensures entries { reverse result.now ≡ self.now.journal }
        ensures beginning { IsBeginningOf self.now.conn self.now.journal }
        ensures started { is_empty self.now.journal ≡ false }
        ensures told { IfSome (W.told self.now.wire) (TellsOf self.now.conn self.now.journal) }
    {
        // This call vouches for the journal.
        let _number = self.thin.number();
        &self.entries
    }

    /// Plans a fault in place of the answer to the nth call on this wire. The Connect is the first call.
    pub fn plan(&mut self, nth: u32, what: Planned) -> Result<(), Memory>
        ensures { PlansFault W.Wire (nth, what) self.old self.new result }
    {
        self.thin.plan(nth, what)
    }

    /// Returns the driver's wire and the journal. It takes no memory.
    pub fn retire(self) -> Retired<W>
        ensures number { result.number ≡ self.conn }
        ensures journal { reverse result.journal.items ≡ self.journal }
        ensures wire { result.wire ≡ self.wire }
        ensures beginning { IsBeginningOf self.conn self.journal }
        ensures told { IfSome (W.told self.wire) (TellsOf self.conn self.journal) }
    {
        let JournaledWire { thin, entries } = self;
        let RetiredThin { number, wire } = thin.retire();
        Retired {
            number,
            journal: entries,
            wire,
        }
    }
}

/// Takes the memory for one more entry, and returns a second permit for it.
pub(crate) fn make_room(entries: &mut Vec<Entry>, permit: &Permit) -> Result<Permit, Memory>
    ensures copied { IfOk result (λ copy. copy ≡ permit.now) }
    ensures room { OnOk result (vec_len entries.new < vec_capacity entries.new) }
    ensures items { entries.new.items ≡ entries.old.items }
{
    let copy = copy_of(permit)?;
    entries.reserve(1)?;
    Ok(copy)
}

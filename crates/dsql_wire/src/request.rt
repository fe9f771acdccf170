ghost use Rattle.std.specs.Prelude.{◌≡◌, ◌∷◌, [], Some, None, true, IsSomeAnd, IfOk, IfErr, IfSome, OnOk, OnErr, IsErrOf};
ghost use Rattle.dsql_driver.specs.Wires.{newly_told};
ghost use Rattle.dsql_tenure_journal.specs.HandlesAndCursors.{fits_at_its_place};
ghost use Rattle.dsql_tenure.specs.Judged.{answered as entry_of};
ghost use Rattle.dsql_wire.specs.Journaled.{MayBeSent, permit_of};
ghost use Rattle.dsql_wire.specs.Opening.{refusal as refusal_of};

use crate::fault::WireFault;
use crate::heard::Heard;
use crate::journal::JudgedJournal;
use crate::permit::answered;
use crate::thin::ThinWire;
use dsql_driver::{DriverAnswer, Refused, Wire};
use dsql_tenure_journal::Permit;
use std::alloc::Global;
use std::marker::Model;

/// The result of a request for a connection: the wire, and the entry of the Connect. There is no wire if the
/// driver refused.
pub struct OpenedThin<W: Wire> {
    pub wire: Option<ThinWire<W>>,
    pub heard: Heard,
}

/// A request for a connection that may be made: its permit, and its journal with room for the first entry.
/// Contracts see the permit.
#[derive(Drop)]
pub(crate) struct Request {
    permit: Permit,
    journal: JudgedJournal,
}

impl Model for Request {
    ghost use Rattle.dsql_tenure_journal.specs.declared.entry.Permit.{Permit};
    ghost use Rattle.dsql_wire.specs.Opening.{IsReady};

    ghost Value = { Permit };

    ghost view = { λ r. r.permit };

    ghost invariant = { λ r. IsReady r.permit r.journal };
}

impl Request {
    /// Takes all the memory for the connection's first entry, if its judge allows the permit. Fails with
    /// `Stray` if the judge doesn't, and with `Memory` if there is no memory.
    pub(crate) fn new(alloc: Global, permit: Permit) -> Result<Request, WireFault>
        ensures permit { IfOk result (λ request. request ≡ permit) }
        ensures ok { OnOk result (MayBeSent permit.conn [] permit) }
        ensures handed_back { IfErr result (λ fault. permit_of fault ≡ permit) }
        ensures stray { IsErrOf result (WireFault.Stray permit) → ¬ MayBeSent permit.conn [] permit }
        ensures memory { IsErrOf result (WireFault.Memory permit) → MayBeSent permit.conn [] permit }
    {
        let mut journal = JudgedJournal::new(alloc, permit.conn);
        if !journal.may_send(&permit) {
            return Err(WireFault::Stray(permit));
        }
        match journal.make_room() {
            Ok(()) => Ok(Request { permit, journal }),
            Err(_) => Err(WireFault::Memory(permit)),
        }
    }

    /// Returns the permit.
    pub(crate) fn permit(&self) -> &Permit
        ensures { result.now ≡ self.now }
    {
        &self.permit
    }

    /// Returns the permit, if the connection isn't asked for after all.
    pub(crate) fn into_permit(self) -> Permit
        ensures { result ≡ self }
    {
        let Request { permit, .. } = self;
        permit
    }

    /// Records that the driver opened the connection with this wire.
    pub(crate) fn opened<W: Wire>(self, wire: W) -> OpenedThin<W>
        requires told { IfSome (W.told wire) (λ told. told ≡ newly_told self.conn) }
        requires handles { W.handles wire ≡ [] }
        requires cursors { W.cursors wire ≡ [] }
        ensures entry { result.heard ≡ entry_of self result.heard.answer }
        ensures answer { result.heard.answer ≡ DriverAnswer.Done }
        ensures fits { fits_at_its_place [] result.heard ≡ true }
        ensures wire { IsSomeAnd result.wire (λ w. w.wire ≡ wire) }
        ensures conn { IfSome result.wire (λ w. w.conn ≡ self.conn) }
        ensures noted { IfSome result.wire (λ w. w.journal ≡ result.heard ∷ []) }
        ensures may { MayBeSent self.conn [] self }
    {
        let Request {
            permit,
            mut journal,
        } = self;
        let entry = answered(permit, DriverAnswer::Done);
        journal.note(&entry);
        OpenedThin {
            wire: Some(ThinWire::of(wire, journal)),
            heard: Heard::new(entry),
        }
    }

    /// Records that the driver refused. A lack of memory is no answer, so it fails with `Memory`.
    pub(crate) fn refused<W: Wire>(self, refused: Refused) -> Result<OpenedThin<W>, WireFault>
        ensures none { IfOk result (λ opened. opened.wire ≡ None) }
        ensures answer { IfOk result (λ opened. refusal_of refused ≡ Some opened.heard.answer) }
        ensures entry { IfOk result (λ opened. opened.heard ≡ entry_of self opened.heard.answer) }
        ensures fits { IfOk result (λ opened. fits_at_its_place [] opened.heard ≡ true) }
        ensures memory { IfErr result (λ fault. fault ≡ WireFault.Memory self) }
        ensures none_made { OnErr result (refusal_of refused ≡ None) }
        ensures may { MayBeSent self.conn [] self }
    {
        let Request { permit, .. } = self;
        match refusal(refused) {
            Some(answer) => Ok(OpenedThin {
                wire: None,
                heard: Heard::new(answered(permit, answer)),
            }),
            None => Err(WireFault::Memory(permit)),
        }
    }
}

/// Returns the answer that a refusal is, or `None` for a lack of memory.
fn refusal(refused: Refused) -> Option<DriverAnswer>
    ensures { result ≡ refusal_of refused }
{
    match refused {
        Refused::Bad => Some(DriverAnswer::Bad),
        Refused::Fail(text) => Some(DriverAnswer::Fail(text)),
        Refused::Memory => None,
    }
}

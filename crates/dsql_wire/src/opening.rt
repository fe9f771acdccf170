ghost use Rattle.std.specs.Prelude.{◌≡◌, ◌<◌, ◌∷◌, [], option_map, vec_capacity, vec_len, IfSome};
ghost use Rattle.dsql_tenure.specs.Judged.{answered as entry_of};
ghost use Rattle.dsql_wire.specs.Calling.{Opens};
ghost use Rattle.dsql_wire.specs.Journaled.{keeping};

use crate::fault::WireFault;
use crate::heard::Heard;
use crate::permit::answered;
use crate::request::{OpenedThin, Request};
use crate::thin::ThinWire;
use crate::wire::{JournaledWire, make_room};
use dsql_driver::{DriverAnswer, Fleet, Wire};
use dsql_tenure_journal::{Entry, Permit};
use std::alloc::Global;

/// The result of a request for a connection: the wire, and the entry of the Connect, which the wire's journal
/// keeps. There is no wire if the driver refused.
pub struct Opened<W: Wire> {
    pub wire: Option<JournaledWire<W>>,
    pub heard: Heard,
}

/// Asks a fleet for a connection whose journal isn't kept, if the connection's judge allows it. It takes all
/// the memory beforehand, so that no connected wire is lost.
pub fn connect_thin<F: Fleet>(
    alloc: Global,
    fleet: &mut F,
    permit: Permit,
) -> Result<OpenedThin<F::Wire>, WireFault>
    ensures { Opens (λ (it : OpenedThin _). it.heard)
        (λ (it : OpenedThin _). it.wire) F.Fleet F.Wire.told permit fleet.old fleet.new result }
{
    let request = Request::new(alloc, permit)?;
    ask(fleet, request)
}

/// Asks a fleet for a connection whose journal is kept, if the connection's judge allows it. It takes all the
/// memory beforehand, so that no connected wire is lost.
pub fn connect<F: Fleet>(
    alloc: Global,
    fleet: &mut F,
    permit: Permit,
) -> Result<Opened<F::Wire>, WireFault>
    ensures { Opens (λ (it : Opened _). it.heard)
        (λ (it : Opened _). it.wire) F.Fleet F.Wire.told permit fleet.old fleet.new result }
{
    let request = Request::new(alloc, permit)?;
    let mut entries = Vec::new(alloc);
    let Ok(noted) = make_room(&mut entries, request.permit()) else {
        return Err(WireFault::Memory(request.into_permit()));
    };
    let OpenedThin { wire, heard } = ask(fleet, request)?;
    Ok(Opened {
        wire: keep(wire, entries, noted),
        heard,
    })
}

/// Returns the wire with its journal, which keeps its first entry.
fn keep<W: Wire>(
    wire: Option<ThinWire<W>>,
    entries: Vec<Entry>,
    noted: Permit,
) -> Option<JournaledWire<W>>
    requires empty { entries.items ≡ [] }
    requires room { vec_len entries < vec_capacity entries }
    requires noted { IfSome wire (λ w. w.journal ≡ entry_of noted DriverAnswer.Done ∷ []) }
    ensures { result ≡ option_map keeping wire }
{
    let mut entries = entries;
    match wire {
        Some(thin) => {
            entries.push_reserved(answered(noted, DriverAnswer::Done));
            Some(JournaledWire::of(thin, entries))
        }
        None => None,
    }
}

/// Asks for the connection. The memory for its first entry must have been taken.
fn ask<F: Fleet>(fleet: &mut F, request: Request) -> Result<OpenedThin<F::Wire>, WireFault>
    ensures { Opens (λ (it : OpenedThin _). it.heard)
        (λ (it : OpenedThin _). it.wire) F.Fleet F.Wire.told request fleet.old fleet.new result }
{
    match fleet.connect(request.permit().conn) {
        Ok(wire) => Ok(request.opened(wire)),
        Err(refused) => request.refused(refused),
    }
}

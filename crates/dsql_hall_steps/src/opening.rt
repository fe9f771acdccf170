//! Connections that the house opens outside of the lock.
ghost use Rattle.std.specs.Prelude.{◌≡◌, is_some, IfErr, IfOk, OnErr};
ghost use Rattle.dsql_engine_laws.specs.driver.Wires.{connected_after};
ghost use Rattle.dsql_engine_laws.specs.wire.Calling.{WantsConnect};
ghost use Rattle.dsql_player_wires.specs.Told.{SameAbility};
ghost use Rattle.dsql_hall_steps.specs.Openings.{IsFound};

use crate::race::Race;
use dsql_engine_laws::{Fleet, Heard, Permit, Wire};
use dsql_hall_bonds::Bond;
use dsql_player_wires::{OpenedThin, ThinWire, open_wire};
use std::alloc::Global;
use std::marker::Model;

/// A connection that is to be opened outside of the lock. Contracts see the work that is out.
pub struct Opening<K: Race> {
    pub(crate) permit: Permit,
    pub(crate) bond: Bond<K>,
}

impl<K: Race> Model for Opening<K> {
    ghost use Rattle.std.specs.Prelude.{◌≡◌};
    ghost use Rattle.dsql_hall_bonds.specs.Work.{Work};
    ghost use Rattle.dsql_hall_steps.specs.Openings.{IsOpening};

    ghost Value = { Work };

    ghost view = { λ o. o.bond };

    ghost invariant = { λ o. (o.permit ≡ o.bond.permit) × IsOpening K.terms.made o.bond };
}

/// What came of a request for a connection: the entry that the fleet's answer made, and the wire, unless the driver
/// refused. Contracts see these with the work. It can't be dropped, because its wire can't.
pub struct Opened<K: Race, W: Wire> {
    pub(crate) heard: Heard,
    pub(crate) wire: Option<ThinWire<W>>,
    pub(crate) bond: Bond<K>,
}

impl<K: Race, W: Wire> Model for Opened<K, W> {
    ghost use Rattle.dsql_hall_steps.specs.Openings.{Found, IsFound};

    ghost Value = { Found W };

    ghost view = { λ o. record { work = o.bond; entry = o.heard; wire = o.wire } };

    ghost invariant = { λ o. IsFound W.told K.terms.telling K.terms.made
        (record { work = o.bond; entry = o.heard; wire = o.wire }) };
}

/// A connection that was not opened, because memory was wanting. Contracts see the work.
pub struct Unopened<K: Race> {
    pub(crate) conn: u32,
    pub(crate) bond: Bond<K>,
}

impl<K: Race> Model for Unopened<K> {
    ghost use Rattle.std.specs.Prelude.{◌≡◌};
    ghost use Rattle.dsql_hall_bonds.specs.Work.{Work};
    ghost use Rattle.dsql_hall_steps.specs.Openings.{IsOpening};

    ghost Value = { Work };

    ghost view = { λ u. u.bond };

    ghost invariant = { λ u. (u.conn ≡ u.bond.conn) × IsOpening K.terms.made u.bond };
}

impl<K: Race> Opening<K> {
    /// Asks the fleet for the connection, once, or not at all if there is no memory before. The lock must not be held.
    pub fn connect<F: Fleet>(
        self,
        alloc: Global,
        fleet: &mut F,
    ) -> Result<Opened<K, F::Wire>, Unopened<K>>
        requires telling { is_some (F.told fleet.old) ≡ K.terms.telling }
        ensures work { IfOk result (λ opened. opened.work ≡ self) }
        ensures found { IfOk result (IsFound F.Wire.told K.terms.telling K.terms.made) }
        ensures asked { IfOk result (λ opened. F.told fleet.new
            ≡ connected_after opened.entry.conn opened.entry.answer (F.told fleet.old)) }
        ensures unopened { IfErr result (λ unopened. unopened ≡ self) }
        ensures wants { OnErr result (WantsConnect self.permit.conn (F.told fleet.old) (F.told fleet.new)) }
        ensures able { SameAbility F.Fleet fleet.old fleet.new }
    {
        let Opening { permit, bond } = self;
        let conn = permit.conn;
        match open_wire(alloc, fleet, permit) {
            Ok(opened) => {
                let OpenedThin { wire, heard } = opened;
                Ok(Opened { heard, wire, bond })
            }
            Err(_) => Err(Unopened { conn, bond }),
        }
    }
}

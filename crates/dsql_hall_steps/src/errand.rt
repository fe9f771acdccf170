//! What is carried out of the hall and back.
ghost use Rattle.std.specs.Prelude.{◌≡◌, IfErr, IfOk};
ghost use Rattle.dsql_hall_steps.specs.Errands.{LacksAnswer};

use crate::race::Race;
use dsql_engine_laws::{Heard, Permit, Wire};
use dsql_hall_bonds::Bond;
use dsql_player_wires::{ThinWire, perform_on};
use std::marker::Model;

/// A driver call that is to be made outside of the lock, with the wire of its connection. Contracts see the work that
/// is out, the client and the wire. It can't be dropped, because its wire can't.
pub struct Errand<K: Race, W: Wire> {
    pub(crate) permit: Permit,
    pub(crate) client: u8,
    pub(crate) wire: ThinWire<W>,
    pub(crate) bond: Bond<K>,
}

impl<K: Race, W: Wire> Model for Errand<K, W> {
    ghost use Rattle.std.specs.Prelude.{◌≡◌};
    ghost use Rattle.dsql_hall_steps.specs.Errands.{Sent, IsErrand};

    ghost Value = { Sent W };

    ghost view = { λ e. record { work = e.bond; client = e.client; wire = e.wire } };

    ghost invariant = { λ e. (e.permit ≡ e.bond.permit)
        × IsErrand W.told K.terms.telling K.terms.made (record { work = e.bond; client = e.client; wire = e.wire }) };
}

/// What comes back of an errand: the wire, and the entry that the driver's answer made. Contracts see these with the
/// work and the client.
pub struct Back<K: Race, W: Wire> {
    pub(crate) heard: Heard,
    pub(crate) client: u8,
    pub(crate) wire: ThinWire<W>,
    pub(crate) bond: Bond<K>,
}

impl<K: Race, W: Wire> Model for Back<K, W> {
    ghost use Rattle.dsql_hall_steps.specs.Errands.{Brought, IsBack};

    ghost Value = { Brought W };

    ghost view = { λ b. record { work = b.bond; client = b.client; wire = b.wire; entry = b.heard } };

    ghost invariant = { λ b. IsBack W.told K.terms.telling K.terms.made
        (record { work = b.bond; client = b.client; wire = b.wire; entry = b.heard }) };
}

/// An errand that comes back without an answer, because memory was wanting. Contracts see what they see of the errand.
pub struct Unheard<K: Race, W: Wire> {
    pub(crate) conn: u32,
    pub(crate) client: u8,
    pub(crate) wire: ThinWire<W>,
    pub(crate) bond: Bond<K>,
}

impl<K: Race, W: Wire> Model for Unheard<K, W> {
    ghost use Rattle.std.specs.Prelude.{◌≡◌};
    ghost use Rattle.dsql_hall_steps.specs.Errands.{Sent, IsUnheard};

    ghost Value = { Sent W };

    ghost view = { λ u. record { work = u.bond; client = u.client; wire = u.wire } };

    ghost invariant = { λ u. (u.conn ≡ u.bond.permit.conn)
        × IsUnheard (record { work = u.bond; client = u.client; wire = u.wire }) };
}

impl<K: Race, W: Wire> Errand<K, W> {
    /// Returns the number of the call that makes the driver call, or 0 if the layer does.
    pub fn call_no(&self) -> u32
        ensures { result ≡ self.now.work.permit.call_no }
    {
        self.permit.call_no
    }

    /// Returns the number of the connection.
    pub fn conn(&self) -> u32
        ensures { result ≡ self.now.wire.conn }
    {
        self.permit.conn
    }

    /// Makes the driver call. Asks the driver once, or not at all if the judge has no memory for the answer. Fails too
    /// if the driver answers Memory. The lock must not be held.
    pub fn perform(self) -> Result<Back<K, W>, Unheard<K, W>>
        ensures back { IfOk result (λ back. back.work ≡ self.work) }
        ensures conn { IfOk result (λ back. back.wire.conn ≡ self.wire.conn) }
        ensures unheard { IfErr result (λ unheard. unheard.work ≡ self.work) }
        ensures wire { IfErr result (λ unheard. LacksAnswer W.told self unheard) }
    {
        let Errand {
            permit,
            client,
            mut wire,
            bond,
        } = self;
        let conn = permit.conn;
        match perform_on(&mut wire, permit) {
            Ok(heard) => Ok(Back {
                heard,
                client,
                wire,
                bond,
            }),
            Err(_) => Err(Unheard {
                conn,
                client,
                wire,
                bond,
            }),
        }
    }
}

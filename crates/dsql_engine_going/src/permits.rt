//! Gives a call leave for the driver call that is due for it.
ghost use Rattle.std.specs.Prelude.{◌≡◌, Some};
ghost use Rattle.dsql_engine_exchanged.specs.Filled.{filled};
ghost use Rattle.dsql_laws_calls.specs.history.Readers.Calls.{site};
ghost use Rattle.dsql_laws_calls.specs.history.Rules.Sent.{asked_by};
ghost use Rattle.dsql_laws_calls.specs.works.Line.{Asked};
ghost use Rattle.dsql_laws_calls.specs.history.Rules.Line.{due_for};
ghost use Rattle.dsql_engine_desk.specs.Desk.{past, Stands};
ghost use Rattle.dsql_engine_going.specs.Permits.{permit_for, sent_at, tx_carried};

use dsql_engine_desk::{BareCall, Desk, Leave, Statement};
use dsql_laws_calls::{Owner, Place};

/// Returns the leave for the driver call that is due for a call.
pub fn leave_for(desk: &Desk, conn: u32, call: u32, due: BareCall) -> Leave
    requires stands { Stands desk.now }
    requires due { Some (filled (asked_by (past desk.now) call) due) ≡ due_for (past desk.now) call }
    requires site { conn ≡ site (past desk.now) call }
    ensures { permit_for (past desk.now) call ≡ Some result }
{
    let place = desk.place(conn);
    let statement = desk.statement(call);
    match sent_at(conn, place, call, due, statement) {
        Some(leave) => leave,
        None => unreachable!(),
    }
}

/// Returns the leave for what a call sends of a statement on a connection in this place. Returns `None` if the
/// connection isn't lent.
fn sent_at(
    conn: u32,
    place: Option<Place>,
    call: u32,
    sent: BareCall,
    statement: Statement,
) -> Option<Leave>
    ensures { result ≡ sent_at call conn place (Some (filled statement sent)) }
{
    match place {
        Some(Place::Lent(tenure, owner)) => {
            let tx = tx_carried(owner, sent);
            Some(Leave::new(conn, tenure, owner, call, tx, sent, statement))
        }
        _ => None,
    }
}

/// Returns the transaction that a driver call carries in a tenure of this owner; 0 for none.
pub fn tx_carried(owner: Owner, sent: BareCall) -> u32
    ensures { (asked : Asked) → result ≡ tx_carried owner (filled asked sent) }
{
    match (owner, sent) {
        (_, BareCall::Reset | BareCall::Valid) => 0,
        (Owner::Tx(tx), _) => tx,
        _ => 0,
    }
}

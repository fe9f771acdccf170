//! Leave for the layer's own driver calls.
ghost use Rattle.std.specs.Prelude.{◌≡◌, ◌<◌, [], Some, is_some, length, option_map, true};
ghost use Rattle.dsql_engine_hearing.specs.journal.Kinds.{number_of};
ghost use Rattle.dsql_engine_hearing.specs.works.Limits.{most_within_a_step};
ghost use Rattle.dsql_engine_hearing.specs.works.declared.work.Aim.TheVariants.{Execute};
ghost use Rattle.dsql_engine_hearing.specs.exchanged.Filled.{filled};
ghost use Rattle.dsql_engine_hearing.specs.history.Rules.Line.{tidying};
ghost use Rattle.dsql_engine_hearing.specs.desk.Desk.{past, Stands};
ghost use Rattle.dsql_engine_hearing.specs.going.Permits.{call_permit, chore_permit, house_permit};

use dsql_engine_hearing::{Aim, BareCall, Desk, Leave, Owner, Place, Statement, tx_carried};

/// Returns the leave for the layer's own driver call on a connection on which it has one to make.
#[tactic(auto, using(crate::proofs::Chores::due_tidying))]
pub fn chore_leave(desk: &Desk, conn: u32) -> Leave
    requires stands { Stands desk.now }
    requires few { length (past desk.now) < most_within_a_step }
    requires due { is_some (chore_permit (past desk.now) conn) ≡ true }
    ensures { chore_permit (past desk.now) conn ≡ Some result }
{
    match desk.place(conn) {
        Some(Place::Opening(_)) => house_leave(conn, 1, BareCall::Connect),
        Some(Place::Closing) => house_leave(conn, desk.next_tenure(conn), BareCall::Shut),
        Some(Place::Lent(tenure, owner)) => tidy_leave(desk, conn, tenure, owner),
        _ => unreachable!(),
    }
}

/// Returns the leave for the layer's next driver call that closes rows or ends a transaction, if no client's
/// call ended them. The driver call has no statement of its own.
fn tidy_leave(desk: &Desk, conn: u32, tenure: u32, owner: Owner) -> Leave
    requires stands { Stands desk.now }
    requires due { is_some (tidying (past desk.now) (number_of owner)) ≡ true }
    ensures { option_map (call_permit conn tenure owner 0) (tidying (past desk.now) (number_of owner)) ≡ Some result }
{
    match desk.tidying(owner.number()) {
        Some(sent) => {
            let statement = desk.statement(0);
            let tx = tx_carried(owner, sent);
            Leave::new(conn, tenure, owner, 0, tx, sent, statement)
        }
        None => unreachable!(),
    }
}

/// Returns the leave for the layer's Connect or Shut, which have no statement.
fn house_leave(conn: u32, tenure: u32, sent: BareCall) -> Leave
    ensures { result ≡ house_permit conn tenure (filled (record { text = []; params = []; aim = Execute }) sent) }
{
    Leave::new(
        conn,
        tenure,
        Owner::House,
        0,
        0,
        sent,
        Statement::none(Aim::Execute),
    )
}

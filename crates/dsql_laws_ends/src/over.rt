//! What is left when the run is over. A history is read newest first.
ghost use Rattle.std.specs.Prelude.{◌≡◌, true, List};
ghost use Rattle.dsql_laws_calls.specs.history.declared.event.Event.{Event};
ghost use Rattle.dsql_laws_calls.specs.history.declared.record.Flight.{Flight};
ghost use Rattle.dsql_laws_calls.specs.history.Readers.Course.{has_ended};
ghost use Rattle.dsql_laws_calls.specs.history.Legal.{Legal};
ghost use Rattle.dsql_laws_ends.specs.Over.{HasRunOut, IsOver};

/// A run that has ended is over if no call may move and there is no chore. Each call then has its reply, no
/// connection is open, and the journal of each connection that has one is whole. No transaction goes on. The
/// Commit or the Rollback that ended each transaction was heard in the tenure in which it was begun. The call
/// that ended the transaction made it, or the layer made a Rollback if only the end of the run ended it.
pub fn a_run_that_ended_and_has_run_out_is_over()
    ensures { (past : List Event) (flights : List Flight) → Legal past → has_ended past ≡ true → HasRunOut past flights
        → IsOver past }
{}

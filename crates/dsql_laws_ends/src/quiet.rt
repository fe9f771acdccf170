//! Which calls have run out. A history is read newest first.
ghost use Rattle.std.specs.Prelude.{◌≡◌, true, List};
ghost use Rattle.dsql_laws_calls.specs.history.declared.event.Event.{Event};
ghost use Rattle.dsql_laws_calls.specs.history.declared.record.Flight.{Flight};
ghost use Rattle.dsql_laws_calls.specs.history.Rules.House.{is_quiet};
ghost use Rattle.dsql_laws_calls.specs.history.Rules.Settled.{Settled};
ghost use Rattle.dsql_laws_calls.specs.history.Legal.{Lawful};
ghost use Rattle.dsql_laws_ends.specs.Over.{HasRunOut};

/// If no call may move and there is no chore, every call has its reply or waits.
pub fn who_has_run_out_is_quiet()
    ensures { (past : List Event) (flights : List Flight) → Lawful past → Settled past → HasRunOut past flights
        → is_quiet past ≡ true }
{}

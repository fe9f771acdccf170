//! Laws of leave for driver calls. A history is read newest first.
ghost use Rattle.std.specs.Prelude.{◌≡◌, ◌≢◌, ◌++◌, ◌∷◌, [], ℕ, true, false, List};
ghost use Rattle.std.specs.List.{list_all};
ghost use Rattle.dsql_engine_hearing.specs.driver.Kinds.{is_connect, is_shut};
ghost use Rattle.dsql_engine_hearing.specs.driver.declared.answer.DriverAnswer.{DriverAnswer};
ghost use Rattle.dsql_engine_hearing.specs.driver.declared.answer.DriverAnswer.TheVariants.{Done};
ghost use Rattle.dsql_engine_hearing.specs.journal.declared.entry.Permit.{Permit};
ghost use Rattle.dsql_engine_hearing.specs.journal.HandlesAndCursors.{fits_at_its_place};
ghost use Rattle.dsql_engine_hearing.specs.journal.Permits.{entry_of};
ghost use Rattle.dsql_tenure.specs.Judged.{answered};
ghost use Rattle.dsql_wire.specs.Journaled.{MayBeSent};
ghost use Rattle.dsql_engine_hearing.specs.history.declared.event.Event.{Event};
ghost use Rattle.dsql_engine_hearing.specs.history.Readers.Journals.{journal};
ghost use Rattle.dsql_engine_hearing.specs.history.Rules.Line.{parts};
ghost use Rattle.dsql_engine_hearing.specs.history.Legal.{Lawful};
ghost use Rattle.dsql_engine_hearing.specs.Hearing.{IsWelcome};
ghost use Rattle.dsql_engine_hearing.specs.laws_steps.Groups.{is_later_of};
ghost use Rattle.dsql_engine_laws.specs.Leaves.{IsLeave};

/// Leave for a driver call stays through each step of another call, unless the driver answers on its connection or its
/// call has its reply.
pub fn leave_stays()
    ensures { (past events more : List Event) (first : Event) (n : ℕ) (permit : Permit) → Lawful (events ++ past)
        → IsLeave past permit → events ≡ more ++ first ∷ [] → list_all (is_later_of n) more ≡ true
        → n ≢ permit.call_no → parts first (entry_of permit Done) ≡ false → IsLeave (events ++ past) permit }
{}

/// Leave is for no opening and no shutting. The connection's wire takes its driver call, and each answer that
/// fits there is welcome.
pub fn what_leave_allows()
    ensures opens { (past : List Event) (permit : Permit) → Lawful past → IsLeave past permit
        → is_connect permit.call ≡ false }
    ensures shuts { (past : List Event) (permit : Permit) → Lawful past → IsLeave past permit
        → is_shut permit.call ≡ false }
    ensures sends { (past : List Event) (permit : Permit) → Lawful past → IsLeave past permit
        → MayBeSent permit.conn (journal past permit.conn) permit }
    ensures hears { (past : List Event) (permit : Permit) (answer : DriverAnswer) → Lawful past → IsLeave past permit
        → fits_at_its_place (journal past permit.conn) (answered permit answer) ≡ true
        → IsWelcome past (answered permit answer) }
{}

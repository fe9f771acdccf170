//! Calls that rest with a connection. A history is read newest first.
ghost use Rattle.std.specs.Prelude.{◌∷◌, List};
ghost use Rattle.dsql_laws_calls.specs.journal.declared.entry.Entry.{Entry};
ghost use Rattle.dsql_laws_calls.specs.history.declared.event.Event.{Event};
ghost use Rattle.dsql_laws_calls.specs.history.declared.event.Event.TheVariants.{Heard};
ghost use Rattle.dsql_laws_calls.specs.history.Legal.{Lawful};
ghost use Rattle.dsql_laws_steps.specs.Steps.{RestsAlone};

/// If a call rests with the connection of an answer after it is heard, the answer is to that call. So each
/// answer is one step (`each_step_is_one`), whichever call rests.
pub fn who_rests_is_answered_alone()
    ensures { (past : List Event) (answer : Entry) → Lawful (Heard answer ∷ past) → RestsAlone past answer }
{}

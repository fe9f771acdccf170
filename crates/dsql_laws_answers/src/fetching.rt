//! What is sent for live rows of a call on the database. A history is read newest first.
ghost use Rattle.std.specs.Prelude.{◌≡◌, ◌≢◌, ℕ, true, List, is_some};
ghost use Rattle.dsql_laws_calls.specs.course.declared.course.Wish.{Wish};
ghost use Rattle.dsql_laws_calls.specs.course.declared.course.Wish.TheVariants.{Nothing};
ghost use Rattle.dsql_laws_calls.specs.history.declared.event.Event.{Event};
ghost use Rattle.dsql_laws_calls.specs.history.Readers.HandedOut.{are_live};
ghost use Rattle.dsql_laws_calls.specs.history.Readers.Works.{asks, work};
ghost use Rattle.dsql_laws_calls.specs.history.Rules.Sent.{line_of};
ghost use Rattle.dsql_laws_calls.specs.history.Legal.{Lawful};

/// Live rows of a call that works on a connection of its own keep its line open: what is wanted of them is
/// sent.
pub fn live_rows_of_a_call_keep_its_line_open()
    ensures { (history : List Event) (n : ℕ) (wish : Wish) → Lawful history → are_live history n ≡ true
        → asks (work history n) ≡ true → wish ≢ Nothing → is_some (line_of history n wish) ≡ true }
{}

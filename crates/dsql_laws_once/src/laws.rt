//! What a server may have carried out for a call. A history is read newest first.
ghost use Rattle.std.specs.Prelude.{◌≡◌, ◌≢◌, ◌≤◌, ℕ, true, false, List, ◌∷◌};
ghost use Rattle.dsql_laws_calls.specs.journal.declared.entry.Entry.{Entry};
ghost use Rattle.dsql_laws_calls.specs.history.Legal.{Lawful};
ghost use Rattle.dsql_laws_calls.specs.history.Readers.Works.{work};
ghost use Rattle.dsql_laws_calls.specs.history.declared.event.Event.{Event};
ghost use Rattle.dsql_laws_calls.specs.history.declared.event.Event.TheVariants.{Heard};
ghost use Rattle.dsql_laws_once.specs.Once.{is_statement, carried_out, reads_one};

/// A statement or ping that a server may have carried out is never sent again, on the database or in a
/// transaction. This holds however often the call is tried. A server may have carried it out unless its answer
/// is that the connection is bad or that the driver skips it. After such an answer the call sends no other
/// statement or ping, so at most one is answered so.
///
/// The law leaves out a call on the database that reads one row itself. Such a call queries again if the fetch
/// of that row found the connection bad. In a transaction it doesn't.
pub fn a_statement_is_carried_out_once()
    ensures once { (history : List Event) (n : ℕ) → Lawful history → n ≢ 0 → reads_one (work history n) ≡ false
        → carried_out history n ≤ 1 }
    ensures again { (history : List Event) (e : Entry) → Lawful (Heard e ∷ history) → e.call_no ≢ 0
        → is_statement e.call ≡ true → reads_one (work history e.call_no) ≡ false
        → carried_out history e.call_no ≡ 0 }
{}

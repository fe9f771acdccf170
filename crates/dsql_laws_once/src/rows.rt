//! What counts among the entries that a server may have carried out for a call. A history is read newest first.
ghost use Rattle.std.specs.Prelude.{◌≡◌, ◌≢◌, ◌≤◌, ℕ, true, false, List, [], ◌∷◌, length};
ghost use Rattle.dsql_laws_calls.specs.journal.declared.entry.Entry.{Entry};
ghost use Rattle.dsql_laws_calls.specs.history.Legal.{Lawful};
ghost use Rattle.dsql_laws_calls.specs.history.Readers.Works.{work};
ghost use Rattle.dsql_laws_calls.specs.history.declared.event.Event.{Event};
ghost use Rattle.dsql_laws_calls.specs.history.declared.event.Event.TheVariants.{Heard};
ghost use Rattle.dsql_laws_once.specs.Once.{is_statement, carried_out, reads_one};
ghost use Rattle.dsql_laws_once.specs.Counted.{counted};

/// At most one statement or ping counts for a call. Its answer is neither that the connection is bad nor that the
/// driver skips it. A call on the database may read one row itself. Its query stops counting after a fetch from the
/// query's cursor is answered that the connection is bad. While one counts, the call sends no other statement or ping.
/// For a call that doesn't read a row in this way, on the database or in a transaction, each of them counts.
pub fn a_row_is_queried_for_once()
    ensures once { (history : List Event) (n : ℕ) → Lawful history → n ≢ 0 → length (counted history n) ≤ 1 }
    ensures again { (history : List Event) (e : Entry) → Lawful (Heard e ∷ history) → e.call_no ≢ 0
        → is_statement e.call ≡ true → counted history e.call_no ≡ [] }
    ensures all { (history : List Event) (n : ℕ) → Lawful history → n ≢ 0 → reads_one (work history n) ≡ false
        → length (counted history n) ≡ carried_out history n }
{}

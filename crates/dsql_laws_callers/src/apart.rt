//! The law that each lawful history keeps callers apart. A history is read newest first.
ghost use Rattle.std.specs.Prelude.{◌≡◌, ◌≢◌, ◌∷◌, ℕ, true, false, List};
ghost use Rattle.dsql_laws_calls.specs.journal.declared.entry.Entry.{Entry};
ghost use Rattle.dsql_laws_calls.specs.journal.declared.entry.Owner.TheVariants.{Tx};
ghost use Rattle.dsql_laws_calls.specs.journal.Kinds.{is_house, number_of};
ghost use Rattle.dsql_laws_calls.specs.history.declared.event.Event.{Event};
ghost use Rattle.dsql_laws_calls.specs.history.declared.event.Event.TheVariants.{Heard};
ghost use Rattle.dsql_laws_calls.specs.history.Readers.Course.{has_ended};
ghost use Rattle.dsql_laws_calls.specs.history.Readers.Works.{work, asks, borrower};
ghost use Rattle.dsql_laws_calls.specs.history.Legal.{Lawful};

/// Callers are kept apart. What a call sends in a tenure of a call or a transaction is sent on the connection that the
/// call uses. That connection is lent to that owner. A call on the database uses its own connection, and a call for
/// rows uses that of their query. A call in a transaction, a commit and a rollback use that of the begin.
///
/// What is sent for a transaction is sent in a tenure of that transaction. Each driver call there that a call
/// sent was sent by a call of that transaction.
///
/// The layer itself sends in the tenure of a call or a transaction only after the run has ended. A call that
/// has a connection of its own sends on no other.
pub fn callers_are_kept_apart()
    ensures sender { (before : List Event) (e : Entry) → Lawful (Heard e ∷ before) → e.call_no ≢ 0
        → borrower before e.call_no
        ≡ number_of e.owner }
    ensures transaction { (before : List Event) (e : Entry) → Lawful (Heard e ∷ before) → e.tx ≢ 0 → e.owner ≡ Tx e.tx }
    ensures inside { (before : List Event) (e : Entry) → Lawful (Heard e ∷ before) → e.tx ≢ 0 → e.call_no ≢ 0
        → borrower before e.call_no ≡ e.tx }
    ensures layer { (before : List Event) (e : Entry) → Lawful (Heard e ∷ before) → is_house e.owner ≡ false
        → e.call_no ≡ 0
        → has_ended before ≡ true }
    ensures outside { (before : List Event) (e : Entry) → Lawful (Heard e ∷ before) → e.call_no ≢ 0
        → asks (work before e.call_no) ≡ true → number_of e.owner ≡ e.call_no }
{}

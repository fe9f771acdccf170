//! Who sends which driver call in a lawful history. A history is read newest first.
ghost use Rattle.std.specs.Prelude.{◌≡◌, ◌∷◌, true, List};
ghost use Rattle.dsql_laws_calls.specs.journal.declared.entry.Entry.{Entry};
ghost use Rattle.dsql_laws_calls.specs.history.declared.event.Event.{Event};
ghost use Rattle.dsql_laws_calls.specs.history.declared.event.Event.TheVariants.{Heard};
ghost use Rattle.dsql_laws_calls.specs.history.Legal.{Lawful};
ghost use Rattle.dsql_laws_apart.specs.Apart.{are_apart, begins_as_asked, comes_from_within, has_unfinished_sender, keeps_to_its_own, names_what_was_made, stands_in_its_transaction, tidies_after_the_end, uses_its_connection};

/// A call sends only after it has entered and before it replies. It sends nothing if it names a transaction that wasn't
/// begun, or rows that weren't handed out. So a call on a label that no call before it made sends nothing.
///
/// A call sends only in tenures of its borrower, or of the transaction that its borrower begins. The borrower is the
/// call to which the pool lent the connection that the call uses. A call that asks for a connection of its own sends
/// on no other.
///
/// A Begin is sent by the very call that asked for it, with the options that it asked for. What is sent for a
/// transaction is sent in a tenure of that transaction. Its sender names that transaction or ended it, unless it is the
/// Begin. The layer itself sends in the tenure of a call or a transaction only after the run has ended.
pub fn each_call_sends_its_own()
    ensures unfinished { (before : List Event) (e : Entry) → Lawful (Heard e ∷ before)
        → has_unfinished_sender before e ≡ true }
    ensures made { (before : List Event) (e : Entry) → Lawful (Heard e ∷ before) → names_what_was_made before e ≡ true }
    ensures sender { (before : List Event) (e : Entry) → Lawful (Heard e ∷ before) → uses_its_connection before e
        ≡ true }
    ensures begin { (before : List Event) (e : Entry) → Lawful (Heard e ∷ before) → begins_as_asked before e ≡ true }
    ensures transaction { (before : List Event) (e : Entry) → Lawful (Heard e ∷ before) → stands_in_its_transaction e
        ≡ true }
    ensures inside { (before : List Event) (e : Entry) → Lawful (Heard e ∷ before) → comes_from_within before e ≡ true }
    ensures layer { (before : List Event) (e : Entry) → Lawful (Heard e ∷ before) → tidies_after_the_end before e
        ≡ true }
    ensures outside { (before : List Event) (e : Entry) → Lawful (Heard e ∷ before) → keeps_to_its_own before e
        ≡ true }
{}

/// In a lawful history each answer keeps all of these rules, so callers are kept apart.
pub fn histories_keep_callers_apart()
    ensures { (history : List Event) → Lawful history → are_apart history ≡ true }
{}

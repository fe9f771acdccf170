//! Laws of connections on which transactions may have been begun and ended. Each is the contract of a function
//! that does nothing.
ghost use Rattle.std.specs.List.{list_all, list_any};
ghost use Rattle.std.specs.Prelude.{◌≡◌, ◌==◌, ◌<◌, ◌≤◌, ℕ, Bool, true, false, List, [], ◌∷◌};
ghost use Rattle.dsql_history.specs.driver.Fits.{fits_of, is_memory};
ghost use Rattle.dsql_history.specs.driver.Kinds.{is_begin, is_ending, is_valid};
ghost use Rattle.dsql_history.specs.driver.declared.answer.DriverAnswer.{DriverAnswer};
ghost use Rattle.dsql_history.specs.driver.declared.call.DriverCall.{DriverCall};
ghost use Rattle.dsql_history.specs.driver.declared.call.DriverCall.TheVariants.{Shut};
ghost use Rattle.dsql_history.specs.driver.declared.caps.Caps.{Caps};
ghost use Rattle.dsql_history.specs.journal.Entries.{shut_entry};
ghost use Rattle.dsql_history.specs.journal.Journal.{IsJournalPrefix, is_last_tenure_whole, may_follow};
ghost use Rattle.dsql_history.specs.journal.Kinds.{is_call, is_house};
ghost use Rattle.dsql_history.specs.journal.Readers.{begun, has, last_tenure, of_tenure, of_transaction, went_bad};
ghost use Rattle.dsql_history.specs.journal.Tenure.{has_ended_transactions, is_whole_tenure};
ghost use Rattle.dsql_history.specs.journal.declared.entry.Entry.{Entry};
ghost use Rattle.dsql_history.specs.journal.declared.entry.Owner.TheVariants.{Tx};
ghost use Rattle.dsql_laws_tenures.specs.Connections.{IsAlone, IsOpen, IsQuiet};
ghost use Rattle.dsql_laws_tenures.specs.Begins.{HasEnded, IsLentTo, is_begin_line};
ghost use Rattle.dsql_laws_tenures.specs.Tenures.{GoesOn, IsBegun, IsOfTransaction};
ghost use Rattle.dsql_history.specs.works.Journals.{ends_invalid};

/// A quiet connection can be lent to a call or to a transaction: the next tenure has it alone. A transaction
/// that wasn't begun on the connection has no entries there yet.
pub fn a_quiet_connection_can_be_lent()
    ensures alone { (c t : ℕ) (J : List Entry) → IsQuiet c J → last_tenure J ≤ t → IsAlone c t J }
    ensures transaction { (can : Caps) (reset_due : Bool) (begin : DriverCall) (c k t : ℕ) (J : List Entry)
        → IsQuiet c J
        → last_tenure J < t → is_begin begin ≡ true → (k == 0) ≡ false → has k (begun J) ≡ false
        → IsLentTo can reset_due begin c k t J }
{}

/// If a tenure has its connection alone, an entry that may follow in it and isn't the layer's leaves it so.
pub fn what_follows_leaves_a_tenure_alone()
    ensures { (c t : ℕ) (J : List Entry) (e : Entry) → IsAlone c t J → may_follow J e ≡ true → e.tenure ≡ t
        → is_house e.owner ≡ false → IsAlone c t (e ∷ J) }
{}

/// If the tenure that has the connection alone is whole, every tenure is whole, and so is the last one.
pub fn each_tenure_is_whole()
    ensures each { (c t n : ℕ) (J : List Entry) → IsAlone c t J → is_whole_tenure t J ≡ true
        → is_whole_tenure n J ≡ true }
    ensures last { (c t : ℕ) (J : List Entry) → IsAlone c t J → is_whole_tenure t J ≡ true → is_last_tenure_whole J
        ≡ true }
{}

/// A transaction whose tenure is whole leaves a quiet connection, if no answer was Bad and the newest entry
/// isn't a test that failed.
pub fn a_whole_tenure_of_a_transaction_leaves_a_quiet_connection()
    ensures { (c k t : ℕ) (J : List Entry) → IsAlone c t J → IsOfTransaction k t J → is_whole_tenure t J ≡ true
        → went_bad J ≡ false → ends_invalid J ≡ false → IsQuiet c J }
{}

/// An open connection whose last tenure is whole can be shut in a later tenure.
pub fn an_open_connection_can_be_shut()
    ensures { (c t : ℕ) (answer : DriverAnswer) (J : List Entry) → IsOpen c J → is_last_tenure_whole J ≡ true
        → last_tenure J < t → fits_of Shut answer ≡ true → is_memory answer ≡ false
        → may_follow J (shut_entry c t answer) ≡ true }
{}

/// On a connection that went bad, a tenure is whole if its transactions have ended. So a call's tenure is
/// whole, since the call began none.
pub fn tenures_of_bad_connections_are_whole()
    ensures ended { (t : ℕ) (J : List Entry) → has_ended_transactions t J ≡ true → went_bad J ≡ true
        → is_whole_tenure t J ≡ true }
    ensures call { (t : ℕ) (J : List Entry) → IsJournalPrefix J → list_all (λ x. is_call x.owner) (of_tenure t J) ≡ true
        → went_bad J ≡ true → is_whole_tenure t J ≡ true }
{}

/// A transaction's tenure that has its connection alone satisfies the premises of the laws of such tenures. It does so
/// while its begin is under way, while it goes on, and after its end. What the transaction sends leaves the tenure its
/// own.
pub fn a_transaction_may_have_its_connection_alone()
    ensures lent { (can : Caps) (reset_due : Bool) (begin : DriverCall) (c k t : ℕ) (J : List Entry) → IsAlone c t J
        → IsOfTransaction k t J → is_begin begin ≡ true → is_begin_line can reset_due begin (of_tenure t J)
        ≡ true → (k == 0) ≡ false → of_transaction k J ≡ [] → IsLentTo can reset_due begin c k t J }
    ensures goes_on { (c k t : ℕ) (J : List Entry) → IsAlone c t J → IsBegun k t J
        → list_any (λ x. is_ending x.call) (of_tenure t J) ≡ false
        → list_any (λ x. is_valid x.call) (of_tenure t J) ≡ false → GoesOn c k t J }
    ensures ended { (c k t : ℕ) (J : List Entry) → IsAlone c t J → IsOfTransaction k t J
        → list_any (λ x. is_ending x.call) (of_tenure t J) ≡ true
        → list_any (λ x. is_valid x.call) (of_tenure t J) ≡ false → went_bad J ≡ false → HasEnded c k t J }
    ensures first { (k t : ℕ) (J : List Entry) → IsJournalPrefix J → last_tenure J < t → IsOfTransaction k t J }
    ensures sent { (k t : ℕ) (J : List Entry) (e : Entry) → IsOfTransaction k t J → may_follow J e ≡ true
        → ((e.tenure == t) ≡ true → e.owner ≡ Tx k) → IsOfTransaction k t (e ∷ J) }
    ensures sent_on { (k t : ℕ) (J : List Entry) (e : Entry) → IsBegun k t J → may_follow J e ≡ true
        → ((e.tenure == t) ≡ true → e.owner ≡ Tx k) → IsBegun k t (e ∷ J) }
{}

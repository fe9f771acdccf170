//! Laws that follow from the definitions of a journal. Each is the contract of a function that does nothing. A
//! journal is read newest first.
ghost use Rattle.std.specs.Prelude.{◌≡◌, ◌↔◌, ◌<◌, ◌≤◌, ◌==◌, ◌&&◌, not, IsTrue, IsFalse, ℕ, List, ◌∷◌, ◌++◌, length};
ghost use Rattle.std.specs.List.{list_all};
ghost use Rattle.dsql_driver.specs.declared.answer.DriverAnswer.{DriverAnswer};
ghost use Rattle.dsql_driver.specs.declared.call.DriverCall.TheVariants.{Shut};
ghost use Rattle.dsql_driver.specs.Fits.{fits_of, is_memory};
ghost use Rattle.dsql_tenure_journal.specs.declared.entry.Entry.{Entry};
ghost use Rattle.dsql_tenure_journal.specs.Facts.{MayFollow, MayShut};
ghost use Rattle.dsql_tenure_journal.specs.Journal.{may_follow, is_finished, IsJournalPrefix, IsWhole};
ghost use Rattle.dsql_tenure_journal.specs.Readers.{is_empty, of_tenure, last_tenure, handles_named, cursors_named};
ghost use Rattle.dsql_tenure_journal.specs.Entries.{shut_entry};
ghost use Rattle.dsql_tenure_journal.specs.Tenure.{is_whole_tenure};

/// The test of an entry is true exactly if each rule holds of it.
pub fn sentences_are_the_test()
    ensures { (before : List Entry) (e : Entry) → IsTrue (may_follow before e) ↔ MayFollow before e }
{}

/// A beginning of a whole journal, cut shorter, is a beginning.
pub fn beginnings_are_beginnings()
    ensures { (later before : List Entry) → IsJournalPrefix (later ++ before) → IsJournalPrefix before }
{}

/// A beginning grows exactly by an entry that may follow it.
pub fn beginnings_grow()
    ensures { (before : List Entry) (e : Entry) → IsJournalPrefix (e ∷ before)
        ↔ (IsJournalPrefix before × MayFollow before e) }
{}

/// A list is a beginning exactly if each entry may follow those before it.
pub fn each_entry_follows()
    ensures each { (journal later before : List Entry) (e : Entry) → IsJournalPrefix journal
        → later ++ e ∷ before ≡ journal
        → MayFollow before e }
    ensures all { (journal : List Entry) → ((later before : List Entry) (e : Entry) → later ++ e ∷ before ≡ journal
        → MayFollow before e) → IsJournalPrefix journal }
{}

/// A list with one entry more is whole exactly if the entry may follow a beginning and nothing is left to be
/// heard then.
pub fn whole_by_the_last_entry()
    ensures { (before : List Entry) (e : Entry) → IsWhole (e ∷ before) ↔ (IsJournalPrefix before × MayFollow before e
        × IsTrue (is_finished (e ∷ before))) }
{}

/// Nothing may follow a whole journal.
pub fn nothing_follows_a_whole_journal()
    ensures { (journal : List Entry) (e : Entry) → IsWhole journal → IsFalse (may_follow journal e) }
{}

/// In a beginning of a whole journal each answer fits its call, and none is Memory.
pub fn answers_fit()
    ensures { (journal : List Entry) → IsJournalPrefix journal
        → IsTrue (list_all (λ e. fits_of e.call e.answer && not (is_memory e.answer)) journal) }
{}

/// In a beginning of a whole journal a number names at most one live handle and at most one live cursor.
pub fn numbers_name_one()
    ensures handles { (n : ℕ) (journal : List Entry) → IsJournalPrefix journal → length (handles_named n journal) ≤ 1 }
    ensures cursors { (n : ℕ) (journal : List Entry) → IsJournalPrefix journal → length (cursors_named n journal) ≤ 1 }
{}

/// In a beginning of a whole journal each tenure before the last one is whole, if it has an entry.
pub fn earlier_tenures_are_whole()
    ensures { (journal : List Entry) (n : ℕ) → IsJournalPrefix journal → IsFalse (is_empty (of_tenure n journal))
        → n < last_tenure journal → IsTrue (is_whole_tenure n journal) }
{}

/// If the tenure under way is whole, Shut may follow, and then the journal is whole.
pub fn a_whole_tenure_can_be_shut()
    ensures { (before : List Entry) (c t : ℕ) (answer : DriverAnswer) → IsTrue (list_all (λ x. x.conn == c) before)
        → MayShut before t → IsTrue (fits_of Shut answer) → IsTrue (not (is_memory answer))
        → IsWhole (shut_entry c t answer ∷ before) }
{}

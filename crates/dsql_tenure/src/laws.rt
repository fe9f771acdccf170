//! Laws that follow from the definitions. Each is the contract of a function that does nothing.
ghost use Rattle.std.specs.Prelude.{List};
ghost use Rattle.dsql_tenure_journal.specs.declared.entry.Entry.{Entry};
ghost use Rattle.dsql_tenure_journal.specs.Journal.{IsJournalPrefix};
ghost use Rattle.dsql_tenure.specs.Ends.{HasWholeEnd};

/// Each beginning of a whole journal has a whole end: the last tenure can be brought to its end, and Shut can
/// follow.
pub fn beginnings_have_a_whole_end()
    ensures { (journal : List Entry) → IsJournalPrefix journal → HasWholeEnd journal }
{}

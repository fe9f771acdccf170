//! Laws of tokens, and worked ones. Each law is the contract of a function that does nothing.
ghost use Rattle.dsql_cancel.specs.Laws.{ChangesOneName, FirstCauseStays, ToldOnce};
ghost use Rattle.dsql_cancel.specs.Worked.{WorkedMoments, WorkedCauses};

/// States that making or cancelling concerns the token with that name and no other, and that a moment changes
/// each token by itself.
pub fn changes_of_one_name()
    ensures { ChangesOneName }
{}

/// States that a cancelled token keeps its cause, whatever is made or cancelled afterwards and whatever moment
/// comes.
pub fn the_first_cause_stays()
    ensures { FirstCauseStays }
{}

/// States that the names that run out are reported in byte order, and none again at a moment that was reported.
pub fn names_are_told_once()
    ensures { ToldOnce }
{}

/// Gives worked moments with the names that run out at them, and worked causes.
pub fn worked_tokens()
    ensures moments { WorkedMoments }
    ensures causes { WorkedCauses }
{}

//! What follows from the definitions. Each law is the contract of a function that does nothing.
ghost use Rattle.dsql_course.specs.Laws.{StepsOnce, ClosesWhatItOpened, RowsAreClosed, RowsOfAnyCourse};
ghost use Rattle.dsql_course.specs.Worked.{WorkedLines};
ghost use Rattle.dsql_course.specs.WorkedCuts.{CutTexts, CutOnes, CutStatements, CutOthers, WorkedRows};

/// States that no two calls of a line are the same step.
#[tactic(auto, using(crate::proofs::Order::steps_once))]
pub fn a_line_takes_each_step_once()
    ensures { StepsOnce }
{}

/// States what a line that is over on a good connection has closed. It closed each cursor from which it reads one row,
/// and each handle for its call alone.
#[tactic(auto, using(crate::proofs::Closed::closes_what_it_opened))]
pub fn what_was_opened_is_closed()
    ensures { ClosesWhatItOpened }
{}

/// States what comes for the rows of a query. Rows that are over or that are to be closed have their cursor
/// closed first, then the handle that their query prepared. After that nothing comes. A row is fetched from
/// open rows if one is wanted. Open rows are left alone if nothing is wanted.
#[tactic(auto, using(crate::proofs::Handed::rows_are_closed))]
pub fn rows_that_are_over_are_closed()
    ensures { RowsAreClosed }
{}

/// States that rows of a statement's run, and rows on a connection that is known to be bad, are fetched from as
/// others are. A statement keeps its handle, and on such a connection nothing is closed.
#[tactic(auto, using(crate::proofs::Handed::rows_of_any_course))]
pub fn rows_of_any_course()
    ensures { RowsOfAnyCourse }
{}

/// Gives worked lines, call after call.
pub fn worked_lines()
    ensures { WorkedLines }
{}

/// Gives worked lines that a cancellation cuts, at each place at which a call looks at its token. They are
/// lines of a text that is executed or queried, of one row, of statements, and of the other courses.
pub fn worked_cuts()
    ensures texts { CutTexts }
    ensures ones { CutOnes }
    ensures statements { CutStatements }
    ensures others { CutOthers }
{}

/// Gives worked rows that a query or a statement handed out.
pub fn worked_rows()
    ensures { WorkedRows }
{}

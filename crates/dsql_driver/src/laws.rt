//! Worked answers, as examples of the table of shapes. They are the contract of a function that does nothing.
ghost use Rattle.dsql_driver.specs.Worked.{WorkedFits};

/// States which answers fit a call and which don't, by example.
pub fn worked_answers()
    ensures { WorkedFits }
{}

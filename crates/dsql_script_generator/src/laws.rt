//! Laws about worked words and lines. Each is the contract of a function that does nothing.
ghost use Rattle.dsql_script_generator.specs.Worked.{WorkedCounts, WorkedLines};

/// Words that ask for a number of lines, and words that don't.
pub fn worked_counts()
    ensures { WorkedCounts }
{}

/// Lines of a generated script.
pub fn worked_lines()
    ensures { WorkedLines }
{}

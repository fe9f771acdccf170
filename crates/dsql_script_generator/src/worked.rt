//! Words that are accepted, and words that aren't.
ghost use Rattle.dsql_script_generator.specs.Words.{WorkedWords};

/// States which words the program accepts, and which it doesn't.
pub fn worked_words()
    ensures { WorkedWords }
{}

//! Laws of arguments, and worked ones. Each law is the contract of a function that does nothing.
ghost use Rattle.dsql_value.specs.ArgumentLaws.{RefusesTheFirst, CountsLast, RefusesHighBits, ChecksNames, KeepsArguments};
ghost use Rattle.dsql_value.specs.WorkedArguments.{WorkedValues, WorkedRefusals};

/// States that a list of arguments has the refusal of its first refused one: all before that are accepted. If
/// there is no refusal, all are accepted.
pub fn the_first_refused_is_told()
    ensures { RefusesTheFirst }
{}

/// States that the number of arguments matters only if each is accepted. Then it must be exactly the number
/// that is wanted, or -1 is wanted.
pub fn numbers_are_counted_last()
    ensures { CountsLast }
{}

/// States that a value is refused exactly if it is an unsigned number with its highest bit set.
pub fn only_high_bits_are_refused()
    ensures { RefusesHighBits }
{}

/// States that no name goes to a driver that takes none, and that each name that goes begins with a letter. A
/// driver that takes names accepts what one without them accepts.
pub fn names_are_checked()
    ensures { ChecksNames }
{}

/// States that there are as many parameters as arguments, in the same order, each with its argument's name and
/// value.
pub fn arguments_are_kept()
    ensures { KeepsArguments }
{}

/// Gives worked arguments with their values, and lists of arguments with their refusals.
pub fn worked_arguments()
    ensures values { WorkedValues }
    ensures refusals { WorkedRefusals }
{}

//! Laws of a scan, and worked rows of its table. Each is the contract of a function that does nothing.
ghost use Rattle.dsql_scan.specs.Numbers.{decimal_value};
ghost use Rattle.dsql_scan.specs.Laws.{DecimalsAreReadBack, IsDecimal, MemoryIsNoAnswer, NullsTakeNil, OnlyDigitsSpell, OnlyTextsSpell, RowsAreAnswered};
ghost use Rattle.dsql_scan.specs.Worked.{WorkedScans};

/// States that digits stand for their decimal number. One more digit at the end makes ten times the number plus
/// that digit, and zeros in front change nothing.
pub fn digits_stand_for_their_decimal_number()
    ensures { IsDecimal decimal_value }
{}

/// States that a number is read in a text exactly if the text is one ASCII digit or more that stand for it. For
/// a signed destination a plus, a minus or no sign stands before them. Nothing else spells a number.
pub fn only_digits_spell_numbers()
    ensures { OnlyDigitsSpell }
{}

/// States that the decimal text of a number of 64 bits is read as that number.
pub fn decimal_texts_are_read_back()
    ensures { DecimalsAreReadBack }
{}

/// States that bytes that aren't UTF-8 spell neither a number nor a truth.
pub fn bytes_that_are_no_text_spell_nothing()
    ensures { OnlyTextsSpell }
{}

/// States that a Null destination takes nil as null. It takes anything else as the destination inside it does,
/// with the same faults.
pub fn null_destinations_take_nil()
    ensures { NullsTakeNil }
{}

/// States that no answer in the table is want of memory.
pub fn memory_is_no_answer_of_the_table()
    ensures { MemoryIsNoAnswer }
{}

/// States that a row whose count of destinations differs is refused for that. Otherwise it is refused for its
/// first refused value, at its place. Otherwise each value has its cell.
pub fn rows_are_answered_by_their_first_fault()
    ensures { RowsAreAnswered }
{}

/// Gives worked rows of the table.
pub fn worked_scans()
    ensures { WorkedScans }
{}

//! Laws of the table of rows, and worked ends. Each law is the contract of a function that does nothing.
ghost use Rattle.dsql_rows.specs.Laws.{FirstEndStays, ScanReadsTheNewest, ChangesOneNumber};
ghost use Rattle.dsql_rows.specs.Worked.{WorkedEnds};

/// The first end of rows stays, whatever ends them later.
#[tactic(auto, using(crate::proofs::Numbers::first_end_stays))]
pub fn the_first_end_stays()
    ensures { FirstEndStays }
{}

/// A scan reads the newest row of live rows, as often as a caller asks. It fails with `NoNextYet` before the
/// first row, and with `RowsClosed` after the rows have ended.
#[tactic(auto, using(crate::proofs::Numbers::scan_reads_the_newest))]
pub fn a_scan_reads_the_newest_row()
    ensures { ScanReadsTheNewest }
{}

/// A change makes or changes the rows of its number, and no others.
#[tactic(auto, using(crate::proofs::Numbers::changes_one_number))]
pub fn changes_of_one_number()
    ensures { ChangesOneNumber }
{}

/// Worked ends: which ends are reported as errors, and what a scan then returns.
pub fn worked_ends()
    ensures { WorkedEnds }
{}

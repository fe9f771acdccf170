//! Laws of the table of transactions, and worked transactions. Each law is the contract of a function that does
//! nothing.
ghost use Rattle.dsql_tx.specs.Laws.{FirstEndStays, EndsAlone};
ghost use Rattle.dsql_tx.specs.Worked.{WorkedTransactions};

/// The first end of a transaction stays, whatever is begun and ended later.
#[tactic(auto, using(crate::proofs::Ends::first_end_stays))]
pub fn the_first_end_stays()
    ensures { FirstEndStays }
{}

/// An end changes nothing of a transaction except what ended it.
pub fn an_end_changes_nothing_else()
    ensures { EndsAlone }
{}

/// Worked transactions: which are found, and what ended them.
pub fn worked_transactions()
    ensures { WorkedTransactions }
{}

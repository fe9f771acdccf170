//! Worked journals: examples of the laws and of their premises.
ghost use Rattle.dsql_laws_tenures.specs.WorkedTenures.{AfterCommit, NotQuiet, NotTested, NotWhole};

/// A call works on a connection on which a transaction was committed. No call works on one whose transaction
/// hasn't ended or has left a handle open, or that failed its test.
pub fn worked_connections()
    ensures after_commit { AfterCommit }
    ensures not_whole { NotWhole }
    ensures not_tested { NotTested }
    ensures not_quiet { NotQuiet }
{}

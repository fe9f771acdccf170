//! Worked values of the pool. Each is the contract of a function that does nothing.
ghost use Rattle.dsql_pool.specs.Worked.Asking.{WorkedAsking, WorkedThousand};
ghost use Rattle.dsql_pool.specs.Worked.Leaving.{WorkedClose, WorkedLeaving, WorkedRest};
ghost use Rattle.dsql_pool.specs.Worked.Opening.{WorkedOpenings, WorkedRefusals};
ghost use Rattle.dsql_pool.specs.Worked.Passing.{WorkedMoments};
ghost use Rattle.dsql_pool.specs.Worked.Returning.{WorkedReturns};
ghost use Rattle.dsql_pool.specs.Worked.Rows.{WorkedRows};
ghost use Rattle.dsql_pool.specs.Worked.Setting.{WorkedSettings};

/// The outcomes of requests.
pub fn worked_asking()
    ensures few { WorkedAsking }
    ensures thousand { WorkedThousand }
{}

/// The outcomes of openings that succeed and of openings that fail.
pub fn worked_openings()
    ensures opened { WorkedOpenings }
    ensures refused { WorkedRefusals }
{}

/// The outcomes of connections that are given back.
pub fn worked_returns()
    ensures { WorkedReturns }
{}

/// Limits that are set, and time that passes.
pub fn worked_limits()
    ensures settings { WorkedSettings }
    ensures moments { WorkedMoments }
{}

/// Requests that leave, the close, and what holds at rest.
pub fn worked_leaving()
    ensures leaving { WorkedLeaving }
    ensures close { WorkedClose }
    ensures rest { WorkedRest }
{}

/// Runs of calls, as whole reports record them.
pub fn worked_rows()
    ensures { WorkedRows }
{}

//! Laws of the limits, and worked values of them. Each law is the contract of a function that does nothing.
ghost use Rattle.dsql_time.specs.Laws.{CountsAreHeld, IdleIsLowered, IdleStaysLowered, IsStrict};
ghost use Rattle.dsql_time.specs.Limits.{has_expired, has_idled_out};
ghost use Rattle.dsql_time.specs.Worked.{WorkedCounts, WorkedExpiries, WorkedIdleLimits};

/// A number of connections counts as it is, up to the largest. Above that it counts as the largest, and below
/// zero as zero.
pub fn laws_of_counts()
    ensures { CountsAreHeld }
{}

/// An open limit lowers the idle limit as far as it must and never raises it. A higher open limit later, or
/// none, doesn't raise it again.
pub fn laws_of_idle_limits()
    ensures lowered { IdleIsLowered }
    ensures stays { IdleStaysLowered }
{}

/// A connection has expired, or idled out, exactly if strictly more than a positive limit has gone by, counted
/// without bound. It stays so from then on.
pub fn laws_of_expiries()
    ensures life { IsStrict has_expired }
    ensures idle { IsStrict has_idled_out }
{}

/// Worked values of the counts, of the idle limit beside an open limit, and of both expiries.
pub fn worked_values()
    ensures counts { WorkedCounts }
    ensures idle_limits { WorkedIdleLimits }
    ensures expiries { WorkedExpiries }
{}

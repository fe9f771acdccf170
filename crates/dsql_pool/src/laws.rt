//! Laws of the pool: each law is the contract of a function that does nothing.
ghost use Rattle.dsql_pool.specs.Laws.{FiguresCountTheMoves, OpensAsAllowed, RestsAfterEachCall, ServesTheOldest, WaitsOnlyAtTheLimit};

/// After an opening has begun, at most as many connections are open as the open limit and the limit of a
/// thousand allow.
#[tactic(auto, using(crate::proofs::Lawful::opens_as_allowed))]
pub fn openings_stay_within_the_room()
    ensures { OpensAsAllowed }
{}

/// A request waits only if it may take no idle connection and as many connections are open as may be.
#[tactic(auto, using(crate::proofs::Served::waits_only_at_the_limit))]
pub fn a_request_waits_only_at_the_limit()
    ensures { WaitsOnlyAtTheLimit }
{}

/// A connection that serves a waiting request serves the one that came first.
#[tactic(auto, using(crate::proofs::Served::serves_the_oldest))]
pub fn the_oldest_is_served_first()
    ensures { ServesTheOldest }
{}

/// The counts of `stats` agree with the moves.
#[tactic(auto, using(crate::proofs::Served::figures_count_the_moves))]
pub fn the_figures_count_the_moves()
    ensures { FiguresCountTheMoves }
{}

/// The pool is at rest after every call.
#[tactic(auto, using(crate::proofs::AfterCalls::rests_after_each_call))]
pub fn the_pool_is_at_rest()
    ensures { RestsAfterEachCall }
{}

ghost use Rattle.std.specs.Prelude.{◌≡◌};
ghost use Rattle.dsql_pool.specs.Counted.{no_counts, closed_for, one_waits, wait_over, with_wait};

use crate::moves::CloseCause;
use dsql_wait::Request;

/// The counts so far.
///
/// They count the requests that had to wait, and the time of the waits that ended, in nanoseconds. They also
/// count the connections closed because enough were idle, for their idle time and for their lifetime. A count
/// that has reached the largest value of its type stays there.
#[derive(Clone, Copy)]
pub struct Counts {
    pub waits: u64,
    pub waited: u64,
    pub idle_full: u64,
    pub idle_time: u64,
    pub lifetime: u64,
}

impl Counts {
    /// Returns the counts of a pool in which nothing was counted.
    pub fn none() -> Counts
        ensures { result ≡ no_counts }
    {
        Counts {
            waits: 0,
            waited: 0,
            idle_full: 0,
            idle_time: 0,
            lifetime: 0,
        }
    }

    /// Returns the counts with one more request that waits.
    pub fn with_one_waiting(self) -> Counts
        ensures { result ≡ one_waits self }
    {
        Counts {
            waits: self.waits.saturating_add(1),
            ..self
        }
    }

    /// Returns the counts with the wait of this request, if there is one, ended at this moment.
    pub fn with_wait_over(self, moment: u64, request: &Option<Request>) -> Counts
        ensures { result ≡ wait_over moment request.now self }
    {
        match request {
            Some(request) => Counts {
                waited: with_wait(moment, self.waited, request),
                ..self
            },
            None => self,
        }
    }

    /// Returns the counts with one more connection closed for this cause, if the cause is counted.
    pub fn with_closed(self, cause: CloseCause) -> Counts
        ensures { result ≡ closed_for cause self }
    {
        match cause {
            CloseCause::IdleFull => Counts {
                idle_full: self.idle_full.saturating_add(1),
                ..self
            },
            CloseCause::IdleTime => Counts {
                idle_time: self.idle_time.saturating_add(1),
                ..self
            },
            CloseCause::Lifetime => Counts {
                lifetime: self.lifetime.saturating_add(1),
                ..self
            },
            _ => self,
        }
    }
}

/// Returns the time waited, with the wait of a request that ends at this moment.
pub fn with_wait(moment: u64, waited: u64, request: &Request) -> u64
    ensures { result ≡ with_wait moment waited request.now }
{
    waited.saturating_add(moment.saturating_sub(request.asked))
}

/// The nine numbers of Go's `DBStats`.
#[derive(Clone, Copy)]
pub struct Stats {
    /// The open limit, or 0 if there is none.
    pub max_open_connections: u64,
    /// The number of connections in the four sets.
    pub open_connections: u64,
    /// The number of open connections that aren't idle.
    pub in_use: u64,
    /// The number of idle connections.
    pub idle: u64,
    /// The number of requests that had to wait.
    pub wait_count: u64,
    /// The time of the waits that ended, in nanoseconds.
    pub wait_duration: u64,
    /// The number of connections closed because enough were idle.
    pub max_idle_closed: u64,
    /// The number of connections closed for their idle time.
    pub max_idle_time_closed: u64,
    /// The number of connections closed for their lifetime.
    pub max_lifetime_closed: u64,
}

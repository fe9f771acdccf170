//! The figures of the pool.
ghost use Rattle.std.specs.Prelude.{◌≡◌};

use crate::pool::Pool;
use crate::stats::Stats;

impl Pool {
    ghost use Rattle.dsql_pool.specs.Pooled.{stats};

    /// Returns the nine numbers of Go's `DBStats`. Takes no memory.
    pub fn stats(&self) -> Stats
        ensures { result ≡ stats self.now.pooled }
    {
        let open = self.conns.count();
        let idle = self.idle.len() as u64;
        Stats {
            max_open_connections: self.limits.max_open as u64,
            open_connections: open,
            in_use: open.saturating_sub(idle),
            idle,
            wait_count: self.counts.waits,
            wait_duration: self.counts.waited,
            max_idle_closed: self.counts.idle_full,
            max_idle_time_closed: self.counts.idle_time,
            max_lifetime_closed: self.counts.lifetime,
        }
    }
}

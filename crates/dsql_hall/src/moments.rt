//! The moments at which the house sets the time.
use dsql_hall_steps::Line;
use dsql_history::{Clock, Control, Op, Setting};

/// The least time between two moments that the house sets, in nanoseconds. Each moment is one of the run's events.
const LEAST_APART: u64 = 1_000_000;

/// The clock of a race, and the last moment that the house set. If no line of the race needs the time, the house sets
/// none.
#[derive(Drop)]
pub(crate) struct Moments<'c, C: Clock> {
    clock: &'c mut C,
    last: u64,
    needed: bool,
}

impl<'c, C: Clock> Moments<'c, C> {
    /// Returns the moments of a race whose run is at its start. `needed` says whether a line needs the time.
    pub(crate) fn new(clock: &'c mut C, needed: bool) -> Moments<'c, C> {
        Moments {
            clock,
            last: 0,
            needed,
        }
    }

    /// Is true if the house sets moments.
    pub(crate) fn are_needed(&self) -> bool {
        self.needed
    }

    /// Returns the present moment if the house is to set it. It must be later than the last one by the least time.
    pub(crate) fn next(&mut self) -> Option<u64> {
        if !self.needed {
            return None;
        }
        let now = self.clock.now();
        if now.saturating_sub(self.last) < LEAST_APART {
            return None;
        }
        self.last = now;
        Some(now)
    }
}

/// Is true if a race with this line needs the present moment. The line limits how long a connection lives or stays
/// idle, or asks how long calls have waited. Zero and less is no limit.
pub fn needs_time(line: &Line) -> bool {
    match line {
        Line::Control(Control::Set(Setting::MaxLife | Setting::MaxIdleTime, n)) => *n > 0,
        Line::Client {
            client: _,
            op: Op::Stats,
        } => true,
        _ => false,
    }
}

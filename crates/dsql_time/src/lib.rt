//! The limits of a connection pool: how many connections may be open or idle, and how long one may live or stay
//! idle. They follow the settings `DB.SetMaxOpenConns`, `DB.SetMaxIdleConns`, `DB.SetConnMaxLifetime` and
//! `DB.SetConnMaxIdleTime` of Go's package `database/sql`, and the counts that `DBStats` reports of them.
#![tactic(auto)]

pub mod laws;

ghost use Rattle.std.specs.Prelude.{◌≡◌};
ghost use Rattle.dsql_time.specs.Limits.{count_limit, duration_limit, has_expired, has_idled_out, idle_limit, standard_max_idle};

/// The limits that a pool keeps. Durations are in nanoseconds.
#[derive(Clone, Copy)]
pub struct Limits {
    /// The most connections open at a time, as `DBStats.MaxOpenConnections`; 0 is no limit.
    pub max_open: u32,
    /// The most idle connections kept; 0 keeps none.
    pub max_idle: u32,
    /// How long a connection may live, counted from its opening; 0 is no limit.
    pub lifetime: u64,
    /// How long a connection may stay idle, counted from its return; 0 is no limit.
    pub idle_time: u64,
}

/// How many idle connections are kept if no other number was set. It follows the default that Go's
/// documentation gives at `DB.SetMaxIdleConns`.
pub const STANDARD_MAX_IDLE: u32 = 2;

/// Returns the limits of a pool on which nothing was set: two idle connections are kept, and nothing else is
/// limited. They follow the defaults that Go's documentation gives at `DB.SetMaxIdleConns` and
/// `DB.SetMaxOpenConns`.
pub fn standard() -> Limits
    ensures open { result.max_open ≡ 0 }
    ensures idle { result.max_idle ≡ standard_max_idle }
    ensures lifetime { result.lifetime ≡ 0 }
    ensures idle_time { result.idle_time ≡ 0 }
{
    Limits {
        max_open: 0,
        max_idle: STANDARD_MAX_IDLE,
        lifetime: 0,
        idle_time: 0,
    }
}

/// Returns the limits with `n` as the most open connections.
///
/// An `n` of 0 or less is no limit, and one above 4,294,967,295 counts as that number. An idle limit above a
/// positive open limit comes down to it, and a later, higher open limit doesn't raise it again. This follows
/// Go's `DB.SetMaxOpenConns`.
pub fn with_open(l: Limits, n: i64) -> Limits
    ensures open { result.max_open ≡ count_limit n }
    ensures idle { result.max_idle ≡ idle_limit (count_limit n) l.max_idle }
    ensures lifetime { result.lifetime ≡ l.lifetime }
    ensures idle_time { result.idle_time ≡ l.idle_time }
{
    let max_open = count(n);
    Limits {
        max_open,
        max_idle: idle_beside(max_open, l.max_idle),
        ..l
    }
}

/// Returns the limits with `n` as the most idle connections kept.
///
/// An `n` of 0 or less keeps none. One above a positive open limit becomes that limit, and one above
/// 4,294,967,295 counts as that number. This follows Go's `DB.SetMaxIdleConns`.
pub fn with_idle(l: Limits, n: i64) -> Limits
    ensures open { result.max_open ≡ l.max_open }
    ensures idle { result.max_idle ≡ idle_limit l.max_open (count_limit n) }
    ensures lifetime { result.lifetime ≡ l.lifetime }
    ensures idle_time { result.idle_time ≡ l.idle_time }
{
    Limits {
        max_idle: idle_beside(l.max_open, count(n)),
        ..l
    }
}

/// Returns the limits with `d` nanoseconds as the longest life of a connection. A `d` of 0 or less is no limit.
/// This follows Go's `DB.SetConnMaxLifetime`.
pub fn with_lifetime(l: Limits, d: i64) -> Limits
    ensures open { result.max_open ≡ l.max_open }
    ensures idle { result.max_idle ≡ l.max_idle }
    ensures lifetime { result.lifetime ≡ duration_limit d }
    ensures idle_time { result.idle_time ≡ l.idle_time }
{
    Limits {
        lifetime: duration(d),
        ..l
    }
}

/// Returns the limits with `d` nanoseconds as the longest time that a connection stays idle. A `d` of 0 or less
/// is no limit. This follows Go's `DB.SetConnMaxIdleTime`.
pub fn with_idle_time(l: Limits, d: i64) -> Limits
    ensures open { result.max_open ≡ l.max_open }
    ensures idle { result.max_idle ≡ l.max_idle }
    ensures lifetime { result.lifetime ≡ l.lifetime }
    ensures idle_time { result.idle_time ≡ duration_limit d }
{
    Limits {
        idle_time: duration(d),
        ..l
    }
}

/// Returns whether a connection opened at the moment `created` has lived longer than `limit` at the moment
/// `now`, all in nanoseconds.
///
/// A connection that has lived exactly that long hasn't expired. With a limit of 0 none expires, nor if the
/// limit ends past the last moment. This follows Go's `DB.SetConnMaxLifetime`; `DBStats.MaxLifetimeClosed`
/// counts the connections closed for it.
pub fn expired(created: u64, limit: u64, now: u64) -> bool
    ensures { result ≡ has_expired created limit now }
{
    limit > 0 && created.saturating_add(limit) < now
}

/// Returns whether a connection given back at the moment `returned` has been idle for longer than `limit` at
/// the moment `now`, all in nanoseconds.
///
/// A connection that has been idle exactly that long hasn't idled out. With a limit of 0 none idles out, nor if
/// the limit ends past the last moment. This follows Go's `DB.SetConnMaxIdleTime`; `DBStats.MaxIdleTimeClosed`
/// counts the connections closed for it.
pub fn idled(returned: u64, limit: u64, now: u64) -> bool
    ensures { result ≡ has_idled_out returned limit now }
{
    limit > 0 && returned.saturating_add(limit) < now
}

fn count(n: i64) -> u32
    ensures { result ≡ count_limit n }
{
    if n <= 0 {
        return 0;
    }
    u32::try_from(n).unwrap_or(u32::MAX)
}

fn duration(d: i64) -> u64
    ensures { result ≡ duration_limit d }
{
    if d <= 0 { 0 } else { d as u64 }
}

// Returns the idle limit beside an open limit. An open limit of 0 is none, so it lowers nothing.
fn idle_beside(max_open: u32, max_idle: u32) -> u32
    ensures { result ≡ idle_limit max_open max_idle }
{
    if max_open == 0 {
        max_idle
    } else {
        max_idle.min(max_open)
    }
}

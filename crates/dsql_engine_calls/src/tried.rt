//! What the layer keeps of the tries of one call.
ghost use Rattle.std.specs.Prelude.{◌≡◌};
ghost use Rattle.dsql_engine_calls.specs.Tried.{asks_again, has_another, newest_lost, next_is_last, number, one_more, untried};
ghost use Rattle.dsql_history.specs.Readers.Tries.{came_to_nothing};

use dsql_history::{DriverAnswer, Try};

/// The most tries that a call has.
pub const MOST_TRIES: u32 = 3;

/// What the layer keeps of a call's tries.
#[derive(Drop)]
pub struct Tried {
    /// The newest try, if there was one.
    pub newest: Option<Try>,
    /// The number of tries so far.
    pub count: u32,
}

impl Tried {
    /// Returns what is kept before the first try.
    pub fn new() -> Tried
        ensures { result ≡ untried }
    {
        Tried {
            newest: None,
            count: 0,
        }
    }

    /// Returns the number of the newest try. A call that has had no try is in its first.
    pub fn number(&self) -> u32
        ensures { result ≡ number self.now }
    {
        match &self.newest {
            Some(_) => self.count,
            None => 1,
        }
    }

    /// Returns true if another try is left.
    pub fn has_another(&self) -> bool
        ensures { result ≡ has_another self.now }
    {
        match &self.newest {
            Some(newest) => came_to_nothing(newest) && self.count < MOST_TRIES,
            None => true,
        }
    }

    /// Returns true if the next try is the last one.
    pub fn next_is_last(&self) -> bool
        ensures { result ≡ next_is_last self.now }
    {
        self.count == MOST_TRIES - 1
    }

    /// Returns true if the newest try was refused and another try is left.
    pub fn asks_again(&self) -> bool
        ensures { result ≡ asks_again self.now }
    {
        matches!(&self.newest, Some(Try::Refused(_))) && self.has_another()
    }

    /// Records one more try.
    pub fn add(&mut self, it: Try)
        ensures { self.new ≡ one_more it self.old }
    {
        self.newest = Some(it);
        self.count = self.count.saturating_add(1);
    }

    /// Records that the newest try is lost, if it was served.
    pub fn lose(&mut self)
        ensures { self.new ≡ newest_lost self.old }
    {
        if matches!(&self.newest, Some(Try::Served)) {
            self.newest = Some(Try::Lost);
        }
    }
}

/// Returns true if the try failed because a connection was bad.
fn came_to_nothing(it: &Try) -> bool
    ensures { result ≡ came_to_nothing it.now }
{
    matches!(it, Try::Lost | Try::Refused(DriverAnswer::Bad))
}

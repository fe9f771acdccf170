//! Questions about who may go on, for threads that wait.
ghost use Rattle.std.specs.Prelude.{◌≡◌, drop, length};
ghost use Rattle.dsql_hall_steps.specs.Waking.{client_may_go_on, frees_others, has_moved, house_may_go_on};

use crate::hall::Hall;
use crate::race::Race;
use dsql_engine_laws::{Event, Wire};

/// Returns the events after the first `seen` ones.
fn after(events: &[Event], seen: usize) -> &[Event]
    ensures { result.now ≡ drop seen events.now }
{
    events.get(seen..).unwrap_or(&[])
}

/// Is true if others may be able to go on after this event that weren't before.
fn frees_others(event: &Event) -> bool
    ensures { result ≡ frees_others event.now }
{
    !matches!(event, Event::Entered { .. } | Event::Heard(_))
}

impl<K: Race, W: Wire> Hall<K, W> {
    /// Is true if the client may go on. Otherwise its next step waits. If its call has leave, that step waits too while
    /// the wire is out.
    pub fn client_may_go_on(&self, client: u8) -> bool
        ensures { result ≡ client_may_go_on client self.now }
    {
        if self.stopped.is_some() || self.resting {
            return true;
        }
        if !self.player.has_call(client) || self.player.has_leave(client) {
            return true;
        }
        self.player.may_move(client)
    }

    /// Is true if the house may take a step of the layer, or may end its part because the run has stopped. Otherwise
    /// its next step waits or is the last one.
    pub fn house_may_go_on(&mut self) -> bool
        ensures same { self.new ≡ self.old }
        ensures may { result ≡ house_may_go_on self.old }
    {
        if self.stopped.is_some() || self.resting {
            return true;
        }
        if self.chore.is_some() {
            return false;
        }
        if self.player.check_room().is_err() || !self.settings.is_empty() {
            return true;
        }
        self.player.chore().is_some()
    }

    /// Returns how many events the history has.
    pub fn event_count(&self) -> usize
        ensures { result ≡ length self.now.player.past }
    {
        self.player.history().len()
    }

    /// Is true if one of the events after the first `seen` ones is neither an entry nor an answer. Others may then be
    /// able to go on that weren't before.
    pub fn has_moved(&self, seen: usize) -> bool
        ensures { result ≡ has_moved seen self.now }
    {
        after(self.player.history(), seen)
            .iter()
            .any(|event| frees_others(event))
    }
}

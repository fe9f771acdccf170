ghost use Rattle.std.specs.Prelude.{◌≡◌, ◌+◌, ◌<◌, ◌≤◌, [], ◌∷◌, ◌++◌, length, ◌==◌, min, false, OnOk, OnErr, IfSome};
ghost use Rattle.std.specs.List.{count_by, position};
ghost use Rattle.std.specs.Option.{option_copied};
ghost use Rattle.std.specs.VecDeque.{deque_len};

use crate::request::Request;
use dsql_value::{Memory, Txt};
use std::alloc::Global;
use std::collections::VecDeque;
use std::marker::Model;

/// The requests that wait. Contracts see them as a list, the oldest first, and for how many calls there is
/// memory.
#[derive(Drop)]
pub struct Waiting {
    queue: VecDeque<Request>,
}

impl Model for Waiting {
    ghost use Rattle.std.specs.Prelude.{◌≡◌, ◌-◌, true};
    ghost use Rattle.std.specs.VecDeque.{deque_len, deque_capacity};
    ghost use Rattle.dsql_wait.specs.Requests.{Queue, are_distinct};

    ghost Value = { Queue };

    ghost view = { λ w. record { requests = w.queue.items; spare = deque_capacity w.queue - deque_len w.queue } };

    ghost invariant = { λ w. are_distinct w.queue.items ≡ true };
}

impl Waiting {
    ghost use Rattle.dsql_wait.specs.Requests.{waits, request_of, is_of, oldest, younger, without_call, without_token};

    /// Returns a queue in which nobody waits. Takes no memory.
    pub fn new(alloc: Global) -> Waiting
        ensures { result.requests ≡ [] }
    {
        Waiting {
            queue: VecDeque::new(alloc),
        }
    }

    /// Appends a request.
    pub fn join(&mut self, request: Request) -> Result<(), Memory>
        requires { waits request.call self.old.requests ≡ false }
        ensures ok { OnOk result (self.new.requests ≡ self.old.requests ++ request ∷ []) }
        ensures full { OnErr result (self.old.spare ≡ 0) }
        ensures err { OnErr result (self.new.requests ≡ self.old.requests) }
        ensures spare { self.old.spare ≤ self.new.spare + 1 }
    {
        self.queue.push_back(request)?;
        Ok(())
    }

    /// Removes the oldest request, if there is one. Takes no memory, and neither does anything below except
    /// `reserve`.
    pub fn serve_oldest(&mut self) -> Option<Request>
        ensures served { result ≡ oldest self.old.requests }
        ensures others { self.new.requests ≡ younger self.old.requests }
        ensures spare { self.old.spare ≤ self.new.spare }
    {
        self.queue.pop_front()
    }

    /// Returns the oldest request, if there is one.
    pub fn oldest(&self) -> Option<&Request>
        ensures { option_copied result ≡ oldest self.now.requests }
    {
        self.queue.front()
    }

    /// Removes a call's request, if it waits.
    pub fn leave(&mut self, call: u32) -> Option<Request>
        ensures left { result ≡ request_of call self.old.requests }
        ensures others { self.new.requests ≡ without_call call self.old.requests }
        ensures spare { self.old.spare ≤ self.new.spare }
    {
        match place_of(&self.queue, call) {
            Some(at) => self.queue.remove(at),
            None => None,
        }
    }

    /// Returns whether a call's request waits.
    pub fn waits(&self, call: u32) -> bool
        ensures { result ≡ waits call self.now.requests }
    {
        self.queue.iter().any(|request| request.call == call)
    }

    /// Removes all requests with a token of that name, and returns how many there were. The number
    /// 4,294,967,295 stands for more, too.
    pub fn leave_all_of(&mut self, token: &Txt) -> u32
        ensures left { result ≡ min (count_by (is_of token.now) self.old.requests) 4294967295 }
        ensures others { self.new.requests ≡ without_token token.now self.old.requests }
        ensures spare { self.old.spare ≤ self.new.spare }
    {
        let left = self
            .queue
            .iter()
            .filter(|request| request.is_of(token))
            .count();
        self.queue.retain(|request| !request.is_of(token));
        u32::try_from(left).unwrap_or(u32::MAX)
    }

    /// Takes memory for this many more calls.
    pub fn reserve(&mut self, calls: u32) -> Result<(), Memory>
        ensures ok { OnOk result (calls ≤ self.new.spare) }
        ensures full { OnErr result (self.old.spare < calls) }
        ensures requests { self.new.requests ≡ self.old.requests }
        ensures spare { self.old.spare ≤ self.new.spare }
    {
        self.queue.reserve(calls as usize)?;
        Ok(())
    }

    /// Returns how many requests wait.
    pub fn held(&self) -> u64
        ensures { result ≡ length self.now.requests }
    {
        self.queue.len() as u64
    }
}

// Returns the place of a call's request.
fn place_of(queue: &VecDeque<Request>, call: u32) -> Option<usize>
    ensures place { result ≡ position (λ request. request.call == call) queue.now.items }
    ensures bound { IfSome result (λ at. at < deque_len queue.now) }
{
    queue.iter().position(|request| request.call == call)
}

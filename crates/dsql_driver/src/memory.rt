ghost use Rattle.std.specs.Prelude.{◌≡◌, ◌<◌, ◌≤◌, ◌++◌, [], true, Some, IfOk, OnOk, OnErr, IsErr, is_err, length, take, if◌then◌else◌};
ghost use Rattle.dsql_driver.specs.Streams.{HasRisen, Takes};
ghost use Rattle.dsql_driver.specs.Memory.{new_stream, fails_next, after_failure, taken_of, filled_of, after_read, appended_of, after_write, moment_of, later_moments};

use crate::clock::{Clock, Gate};
use crate::stream::{Failed, Sink, Source};
use std::alloc::Global;
use std::marker::Model;

/// A source over bytes in memory. It fails at chosen reads.
#[derive(Drop)]
pub struct SliceSource<'a> {
    bytes: &'a [u8],
    piece: usize,
    failing: &'a [u64],
    reads: u64,
    faults: u64,
}

impl<'a> Model for SliceSource<'a> {
    ghost use Rattle.std.specs.Prelude.{◌<◌};
    ghost use Rattle.dsql_driver.specs.Memory.{Stream};

    ghost Value = { Stream };

    ghost view = { λ s. record {
      bytes = s.bytes.now;
      piece = s.piece;
      failing = s.failing.now;
      turns = s.reads;
      faults = s.faults;
    } };

    ghost invariant = { λ s. 0 < s.piece };
}

impl<'a> SliceSource<'a> {
    /// Returns a source of these bytes. A read takes at most `piece` of them. The kth read, counted from 1,
    /// fails if k is in `failing`.
    pub fn new(bytes: &'a [u8], piece: usize, failing: &'a [u64]) -> SliceSource<'a>
        requires { 0 < piece }
        ensures { result ≡ new_stream bytes.now piece failing.now }
    {
        SliceSource {
            bytes,
            piece,
            failing,
            reads: 0,
            faults: 0,
        }
    }

    /// Returns the bytes that are left.
    pub fn rest(&self) -> &[u8]
        ensures { result.now ≡ self.now.bytes }
    {
        self.bytes
    }
}

impl<'a> Source for SliceSource<'a> {
    ghost left = { λ s. Some s.bytes };

    ghost faults = { λ s. s.faults };

    fn read(&mut self, buf: &mut [u8]) -> Result<usize, Failed>
        ensures within { IfOk result (λ n. n ≤ length buf.old) }
        ensures taken { IfOk result (λ n. Takes n (Some self.old.bytes) (Some self.new.bytes) buf.new) }
        ensures failed { OnErr result (Some self.new.bytes ≡ Some self.old.bytes) }
        ensures counted { self.old.faults ≤ self.new.faults }
        ensures caused { OnErr result (HasRisen self.old.faults self.new.faults) }
        ensures faultless { OnOk result (self.new.faults ≡ self.old.faults) }

        // A source in memory promises more: when a read fails, how much it takes, and what the source is
        // afterwards.
        ensures planned { is_err result ≡ fails_next self.old }
        ensures count { IfOk result (λ n. n ≡ taken_of self.old (length buf.old)) }
        ensures after { self.new ≡ after_read self.old (length buf.old) }
        ensures buffer { buf.new ≡ (if fails_next self.old then buf.old else filled_of self.old buf.old) }
    {
        self.reads = self.reads.saturating_add(1);
        if self.failing.contains(&self.reads) {
            self.faults = self.faults.saturating_add(1);
            return Err(Failed);
        }
        let n = self.bytes.len().min(self.piece).min(buf.len());
        let (front, rest) = self.bytes.split_at(n);
        buf[..n].copy_from_slice(front);
        self.bytes = rest;
        Ok(n)
    }
}

/// A sink that keeps the bytes written to it. It fails at chosen writes.
#[derive(Drop)]
pub struct VecSink {
    bytes: Vec<u8>,
    piece: usize,
    failing: Vec<u64>,
    writes: u64,
    faults: u64,
}

impl Model for VecSink {
    ghost use Rattle.std.specs.Prelude.{◌<◌};
    ghost use Rattle.dsql_driver.specs.Memory.{Stream};

    ghost Value = { Stream };

    ghost view = { λ s. record {
      bytes = s.bytes.items;
      piece = s.piece;
      failing = s.failing.items;
      turns = s.writes;
      faults = s.faults;
    } };

    ghost invariant = { λ s. 0 < s.piece };
}

impl VecSink {
    /// Returns an empty sink. A write appends at most `piece` bytes. The kth write, counted from 1, fails if k
    /// is in `failing`. A write also fails if there is no memory for its bytes.
    pub fn new(alloc: Global, piece: usize, failing: Vec<u64>) -> VecSink
        requires { 0 < piece }
        ensures { result ≡ new_stream [] piece failing.items }
    {
        VecSink {
            bytes: Vec::new(alloc),
            piece,
            failing,
            writes: 0,
            faults: 0,
        }
    }

    /// Returns the bytes that were written.
    pub fn bytes(&self) -> &[u8]
        ensures { result.now ≡ self.now.bytes }
    {
        &self.bytes
    }
}

impl Sink for VecSink {
    ghost written = { λ s. Some s.bytes };

    ghost faults = { λ s. s.faults };

    fn write(&mut self, piece: &[u8]) -> Result<usize, Failed>
        ensures within { IfOk result (λ n. n ≤ length piece.now) }
        ensures progress { IfOk result (λ n. 0 < length piece.now → 0 < n) }
        ensures appended { IfOk result (λ n. self.new.bytes ≡ self.old.bytes ++ take n piece.now) }
        ensures failed { OnErr result (Some self.new.bytes ≡ Some self.old.bytes) }
        ensures counted { self.old.faults ≤ self.new.faults }
        ensures caused { OnErr result (HasRisen self.old.faults self.new.faults) }
        ensures faultless { OnOk result (self.new.faults ≡ self.old.faults) }

        // A sink in memory promises more: when a write has to fail, how much it appends, and what the sink is
        // afterwards.
        ensures planned { fails_next self.old ≡ true → IsErr result }
        ensures count { IfOk result (λ n. n ≡ appended_of self.old (length piece.now)) }
        ensures ok { OnOk result (self.new ≡ after_write self.old piece.now) }
        ensures err { OnErr result (self.new ≡ after_failure self.old) }
    {
        self.writes = self.writes.saturating_add(1);
        let n = piece.len().min(self.piece);
        if self.failing.contains(&self.writes)
            || self.bytes.extend_from_slice(&piece[..n]).is_err()
        {
            self.faults = self.faults.saturating_add(1);
            return Err(Failed);
        }
        Ok(n)
    }
}

/// A clock that gives the moments of a list.
#[derive(Drop)]
pub struct ListClock {
    moments: Vec<u64>,
    next: usize,
}

impl Model for ListClock {
    ghost use Rattle.std.specs.Prelude.{ℕ, ◌≤◌, List, length, drop};

    ghost Value = { List ℕ };

    ghost view = { λ c. drop c.next c.moments.items };

    ghost invariant = { λ c. c.next ≤ length c.moments.items };
}

impl ListClock {
    /// Returns a clock that gives these moments in order and then stays at the last one. If there are none, it
    /// stays at 0.
    pub fn new(moments: Vec<u64>) -> ListClock
        ensures { result ≡ moments.items }
    {
        ListClock { moments, next: 0 }
    }
}

impl Clock for ListClock {
    fn now(&mut self) -> u64
        ensures moment { result ≡ moment_of self.old }
        ensures after { self.new ≡ later_moments self.old }
    {
        let moment = self.moments.get(self.next).copied().unwrap_or(0);
        if self.moments.len() - self.next > 1 {
            self.next += 1;
        }
        moment
    }
}

/// A gate that lets every call pass at once.
#[derive(Clone, Copy)]
pub struct OpenGate;

impl Gate for OpenGate {
    fn before(&self, _client: u8, _call: u32) {}
}

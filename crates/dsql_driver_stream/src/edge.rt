//! The trusted edge: the process's readers, writers and clock, as the streams and the clock of a run. Their
//! contracts say nothing of the bytes that came or went.
ghost use Rattle.std.specs.Prelude.{◌≡◌, ◌≤◌, ℕ, None, IfOk, length};

use dsql_driver::{Clock, Failed, Sink, Source};
use std::io::{self, Read, Write};
use std::marker::Model;
use std::rt;
use std::time::Instant;

/// A source over a reader, such as standard input. Contracts see how often it failed.
#[derive(Drop)]
pub struct StdSource<R> {
    reader: R,
    faults: u64,
}

impl<R> Model for StdSource<R> {
    ghost Value = { ℕ };

    ghost view = { λ s. s.faults };
}

impl<R: Read> StdSource<R> {
    /// Returns a source that hasn't failed.
    pub fn new(reader: R) -> StdSource<R>
        ensures { result ≡ 0 }
    {
        StdSource { reader, faults: 0 }
    }
}

impl<R: Read> Source for StdSource<R> {
    ghost left = { λ _. None };

    ghost faults = { λ s. s };

    fn read(&mut self, buf: &mut [u8]) -> Result<usize, Failed> {
        match self.reader.read(buf) {
            Ok(n) => Ok(n),
            Err(_) => {
                self.faults = self.faults.saturating_add(1);
                Err(Failed)
            }
        }
    }
}

/// A sink over a writer, such as standard output and standard error. It flushes after each write. Contracts see
/// how often it failed.
#[derive(Drop)]
pub struct StdSink<W> {
    writer: W,
    faults: u64,
}

impl<W> Model for StdSink<W> {
    ghost Value = { ℕ };

    ghost view = { λ s. s.faults };
}

impl<W: Write> StdSink<W> {
    /// Returns a sink that hasn't failed.
    pub fn new(writer: W) -> StdSink<W>
        ensures { result ≡ 0 }
    {
        StdSink { writer, faults: 0 }
    }
}

/// Writes a front part of the piece and flushes the writer, so that nothing waits in it.
fn write_through<W: Write>(writer: &mut W, piece: &[u8]) -> io::Result<usize>
    ensures { IfOk result (λ n. n ≤ length piece.now) }
{
    let n = writer.write(piece)?;
    writer.flush()?;
    Ok(n)
}

impl<W: Write> Sink for StdSink<W> {
    ghost written = { λ _. None };

    ghost faults = { λ s. s };

    fn write(&mut self, piece: &[u8]) -> Result<usize, Failed> {
        match write_through(&mut self.writer, piece) {
            Ok(n) if n > 0 || piece.is_empty() => Ok(n),
            _ => {
                self.faults = self.faults.saturating_add(1);
                Err(Failed)
            }
        }
    }
}

/// The system's clock, counted in nanoseconds since this one was made. Contracts see its last moment.
#[derive(Drop)]
pub struct StdClock<C> {
    clock: C,
    start: Option<Instant>,
    last: u64,
}

impl<C> Model for StdClock<C> {
    ghost Value = { ℕ };

    ghost view = { λ c. c.last };
}

impl<C: rt::Clock> StdClock<C> {
    /// Returns a clock that begins at 0. If the system's clock fails here, this one begins at the first moment
    /// that it gets.
    pub fn new(clock: C) -> StdClock<C>
        ensures { result ≡ 0 }
    {
        let start = Instant::now(&clock).ok();
        StdClock {
            clock,
            start,
            last: 0,
        }
    }
}

impl<C: rt::Clock> Clock for StdClock<C> {
    /// Returns the present moment, or the last one if the system's clock fails or went back.
    fn now(&mut self) -> u64
        ensures moment { result ≡ self.new }
        ensures forward { self.old ≤ self.new }
    {
        if let Ok(present) = Instant::now(&self.clock) {
            let start = self.start.unwrap_or(present);
            self.start = Some(start);
            let passed = present.duration_since(start).as_nanos();
            self.last = self.last.max(u64::try_from(passed).unwrap_or(u64::MAX));
        }
        self.last
    }
}

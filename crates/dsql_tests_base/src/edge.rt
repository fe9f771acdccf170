use dsql_driver::{Clock, Failed, Sink, Source};
use dsql_driver_stream::{StdClock, StdSink, StdSource};
use std::cell::Cell;
use std::io::{self, ErrorKind, Read, Write};
use std::rt;
use std::time::Duration;

fn broken() -> io::Error {
    io::Error::from(ErrorKind::Other)
}

#[derive(Drop)]
struct Unreadable;

impl Read for Unreadable {
    fn read(&mut self, _buf: &mut [u8]) -> io::Result<usize> {
        Err(broken())
    }
}

#[test]
fn a_failed_read_is_a_fault(rt: HostRuntime) {
    let read = StdSource::new(Unreadable).read(&mut [0; 2]);
    assert_eq!(rt; read, Err(Failed));
}

/// A writer that takes at most `takes` bytes at a write, or fails if that is `None`. Its flush fails unless
/// `flushes` is set.
#[derive(Drop)]
struct Pipe {
    takes: Option<usize>,
    flushes: bool,
}

impl Write for Pipe {
    fn write(&mut self, buf: &[u8]) -> io::Result<usize> {
        match self.takes {
            Some(most) => Ok(most.min(buf.len())),
            None => Err(broken()),
        }
    }

    fn flush(&mut self) -> io::Result<()> {
        if self.flushes { Ok(()) } else { Err(broken()) }
    }
}

fn write(takes: Option<usize>, flushes: bool) -> Result<usize, Failed> {
    StdSink::new(Pipe { takes, flushes }).write(b"abc")
}

#[test]
fn a_write_goes_through_or_is_a_fault(rt: HostRuntime) {
    assert_eq!(rt; write(Some(2), true), Ok(2));
    assert_eq!(rt; write(Some(2), false), Err(Failed));
    assert_eq!(rt; write(Some(0), true), Err(Failed));
    assert_eq!(rt; write(None, true), Err(Failed));
}

/// A clock that stands at a number of nanoseconds, or fails at 0.
#[derive(Drop)]
struct Dial<'a> {
    nanos: &'a Cell<u64>,
}

impl rt::Clock for Dial<'_> {
    fn monotonic(&self) -> io::Result<Duration> {
        match self.nanos.get() {
            0 => Err(broken()),
            nanos => Ok(Duration::from_nanos(nanos)),
        }
    }

    fn since_1970(&self) -> io::Result<Duration> {
        Err(broken())
    }
}

/// Returns what the clock says when the dial stands at `stand`.
fn told<C: Clock>(clock: &mut C, dial: &Cell<u64>, stand: u64) -> u64 {
    dial.set(stand);
    clock.now()
}

#[test]
fn a_clock_that_fails_stays_where_it_was(rt: HostRuntime) {
    let nanos = Cell::new(0);
    let mut clock = StdClock::new(Dial { nanos: &nanos });
    assert_eq!(rt; told(&mut clock, &nanos, 15), 0);
    assert_eq!(rt; told(&mut clock, &nanos, 2010), 1995);
    assert_eq!(rt; told(&mut clock, &nanos, 0), 1995);
    assert_eq!(rt; told(&mut clock, &nanos, 12), 1995);
}

ghost use Rattle.std.specs.Prelude.{◌≡◌, ◌≢◌, ◌<◌, ◌≤◌, ◌+◌, ◌++◌, ℕ, List, [], ◌∷◌, ◌↔◌, All, IsTrue, IfOk, OnOk, OnErr, IfSome, IfNone, MatchOption, is_some, option_to_list, length, take, vec_len, vec_capacity};
ghost use Rattle.dsql_driver.specs.Streams.{HasRisen};
ghost use Rattle.dsql_driver_stream.specs.Lines.{ahead, HandsOut, SawTheEnd, TakesOff};

use dsql_driver::{Failed, Source};
use dsql_value::Memory;
use std::alloc::{AllocError, Global};
use std::marker::Model;
use thiserror::Error;

/// The most bytes that a line may have.
pub const LONGEST: usize = 4096;

/// How many bytes one read asks for.
const ROOM: usize = 4096;

/// Why the reader returned no line.
#[derive(Clone, Copy, Debug, PartialEq, Eq, Error)]
pub enum ReadFault {
    /// The source failed.
    #[error("the read failed")]
    Failed,
    /// There was no memory for the line.
    #[error("out of memory")]
    Memory,
}

impl From<Failed> for ReadFault {
    ghost use Rattle.dsql_driver_stream.specs.declared.lines.ReadFault.TheVariants.{Failed as TheFailed};

    ghost from_gives = { λ _ fault. fault ≡ TheFailed };

    fn from(_failed: Failed) -> ReadFault {
        ReadFault::Failed
    }
}

impl From<AllocError> for ReadFault {
    ghost use Rattle.dsql_driver_stream.specs.declared.lines.ReadFault.TheVariants.{Memory as WantOfMemory};

    ghost from_gives = { λ _ fault. fault ≡ WantOfMemory };

    fn from(_e: AllocError) -> ReadFault {
        ReadFault::Memory
    }
}

/// A reader that takes lines out of a source. It reads ahead, so a source belongs to one reader.
#[derive(Drop)]
pub struct LineReader {
    buffer: Vec<u8>,
    start: usize,
    end: usize,
    ended: bool,
}

impl Model for LineReader {
    ghost use Rattle.std.specs.Prelude.{◌≡◌, ◌≤◌, true, length, take, drop};
    ghost use Rattle.dsql_driver_stream.specs.Buffered.{Buffered};
    ghost use Rattle.dsql_driver_stream.specs.declared.lines.TheConstants.{ROOM};

    ghost Value = { Buffered };

    ghost view = { λ r. record { pending = drop r.start (take r.end r.buffer.items); ended = r.ended } };

    ghost invariant = { λ r. (r.start ≤ r.end) × (r.end ≤ length r.buffer.items) × (length r.buffer.items ≡ ROOM)
        × (r.ended ≡ true → r.start ≡ r.end) };
}

impl LineReader {
    ghost use Rattle.dsql_driver_stream.specs.declared.lines.ReadFault.{ReadFault};
    ghost use Rattle.std.specs.Prelude.{true, false};

    /// Returns a reader that has read nothing.
    pub fn new(alloc: Global) -> Result<LineReader, Memory>
        ensures { IfOk result (λ reader. reader ≡ record { pending = []; ended = false }) }
    {
        Ok(LineReader {
            buffer: vec![in alloc; 0; ROOM]?,
            start: 0,
            end: 0,
            ended: false,
        })
    }

    /// Hands the next line out in `line`. Returns false if there is none, because the source is at its end. The
    /// line lacks its line feed and keeps a carriage return. As with `ScanLines` of Go's package `bufio`, the
    /// source's last line may lack its line feed, if it isn't empty.
    ///
    /// A line of more than `LONGEST` bytes is cut after its first `LONGEST + 1`, and the next call goes on
    /// there. If the source fails, `line` has the bytes of the line that were read, and no later call hands
    /// them out. Fails with `Memory` only before it has read anything. After it saw the end, the reader reads
    /// the source no more.
    pub fn next_line<S: Source>(
        &mut self,
        source: &mut S,
        line: &mut Vec<u8>,
    ) -> Result<bool, ReadFault>
        ensures handed_out { IfOk result (λ there. HandsOut there (ahead self.old (S.left source.old))
            (ahead self.new (S.left source.new)) line.new.items) }
        ensures end { result ≡ Ok false → (self.new ≡ record { pending = []; ended = true }) × (line.new.items ≡ []) }

        // A line that isn't cut lacks its line feed in the source only if the reader saw the source's end.
        ensures fed { result ≡ Ok true → vec_len line.new ≤ LONGEST → self.new.ended ≡ false
            → TakesOff (line.new.items
            ++ 10 ∷ []) (ahead self.old (S.left source.old)) (ahead self.new (S.left source.new)) }

        // After a fault nothing is pending. What was read of the line was the front of what was ahead.
        ensures failed { result ≡ Err ReadFault.Failed → (self.new ≡ record { pending = []; ended = false })
            × TakesOff line.new.items (ahead self.old (S.left source.old)) (ahead self.new (S.left source.new)) }
        ensures caused { result ≡ Err ReadFault.Failed → HasRisen (S.faults source.old) (S.faults source.new) }
        ensures memory { result ≡ Err ReadFault.Memory → (self.new ≡ self.old) × (source.new ≡ source.old)
            × (line.new.items ≡ []) }

        // These hold for every result.
        ensures short { vec_len line.new ≤ LONGEST + 1 }
        ensures feedless { All (λ byte. byte ≢ 10) line.new.items }
        ensures counted { S.faults source.old ≤ S.faults source.new }
        ensures faultless { OnOk result (S.faults source.new ≡ S.faults source.old) }
        ensures telling { is_some (S.left source.new) ≡ is_some (S.left source.old) }
        ensures after_end { self.old.ended ≡ true → (source.new ≡ source.old) × (self.new.ended ≡ true) }
        ensures sees { SawTheEnd self.old (S.left source.old) → SawTheEnd self.new (S.left source.new) }
    {
        line.clear();
        line.reserve(LONGEST + 1)?;
        while line.len() <= LONGEST {
            match self.take_byte(source)? {
                Some(b'\n') => return Ok(true),
                Some(byte) => {
                    line.push_reserved(byte);
                    self.take_run(line);
                }
                None => return Ok(!line.is_empty()),
            }
        }
        Ok(true)
    }

    /// Reads the source once.
    fn fill<S: Source>(&mut self, source: &mut S) -> Result<(), Failed>
        requires { self.old ≡ record { pending = []; ended = false } }
        ensures ok { OnOk result
            (TakesOff [] (ahead self.old (S.left source.old)) (ahead self.new (S.left source.new))) }
        ensures empty { OnOk result (self.new.pending ≡ [] → self.new.ended ≡ true) }
        ensures sees { OnOk result (SawTheEnd self.new (S.left source.new)) }
        ensures err { OnErr result (self.new ≡ self.old) }
        ensures failed { OnErr result (S.left source.new ≡ S.left source.old) }
        ensures counted { S.faults source.old ≤ S.faults source.new }
        ensures caused { OnErr result (HasRisen (S.faults source.old) (S.faults source.new)) }
        ensures faultless { OnOk result (S.faults source.new ≡ S.faults source.old) }
    {
        self.start = 0;
        self.end = 0;
        let n = source.read(&mut self.buffer)?;
        self.end = n;
        self.ended = n == 0;
        Ok(())
    }

    /// Returns true if nothing is pending.
    fn is_empty(&self) -> bool
        ensures { IsTrue result ↔ (self.now.pending ≡ []) }
    {
        self.start == self.end
    }

    /// Reads the source once if nothing is pending, unless the reader saw the end.
    fn make_ready<S: Source>(&mut self, source: &mut S) -> Result<(), Failed>
        ensures same { TakesOff [] (ahead self.old (S.left source.old)) (ahead self.new (S.left source.new)) }
        ensures ok { OnOk result (self.new.pending ≡ [] → self.new.ended ≡ true) }
        ensures err { OnErr result (self.new ≡ record { pending = []; ended = false }) }
        ensures counted { S.faults source.old ≤ S.faults source.new }
        ensures caused { OnErr result (HasRisen (S.faults source.old) (S.faults source.new)) }
        ensures faultless { OnOk result (S.faults source.new ≡ S.faults source.old) }
        ensures after_end { self.old.ended ≡ true → (source.new ≡ source.old) × (self.new.ended ≡ true) }
        ensures sees { SawTheEnd self.old (S.left source.old) → SawTheEnd self.new (S.left source.new) }
    {
        if self.ended || !self.is_empty() {
            return Ok(());
        }
        self.fill(source)
    }

    /// Takes the first pending byte, if there is one.
    fn pop(&mut self) -> Option<u8>
        ensures byte { MatchOption result (self.old.pending ≡ []) (λ byte. self.old.pending ≡ byte ∷ self.new.pending) }
        ensures none { IfNone result (self.new ≡ self.old) }
        ensures ended { self.new.ended ≡ self.old.ended }
    {
        if self.start == self.end {
            return None;
        }
        let byte = self.buffer[self.start];
        self.start += 1;
        Some(byte)
    }

    /// Takes the pending bytes before the first line feed among them, or as many as the line may still have.
    fn take_run(&mut self, line: &mut Vec<u8>)
        requires room { LONGEST + 1 ≤ vec_capacity line.old }
        requires short { vec_len line.old ≤ LONGEST + 1 }
        ensures run { (run : List ℕ) × (line.new.items ≡ line.old.items ++ run)
            × (self.old.pending ≡ run ++ self.new.pending) × All (λ byte. byte ≢ 10) run }
        ensures short { vec_len line.new ≤ LONGEST + 1 }
        ensures capacity { vec_capacity line.old ≤ vec_capacity line.new }
        ensures ended { self.new.ended ≡ self.old.ended }
    {
        let most = LONGEST + 1 - line.len();
        let pending = &self.buffer[self.start..self.end];
        let front = &pending[..pending.len().min(most)];
        let count = run_length(front);
        match line.extend_from_slice(&front[..count]) {
            Ok(()) => self.start += count,
            Err(_) => unreachable!(),
        }
    }

    /// Takes the next byte, if there is one.
    fn take_byte<S: Source>(&mut self, source: &mut S) -> Result<Option<u8>, Failed>
        ensures byte { IfOk result (λ byte. TakesOff (option_to_list byte) (ahead self.old (S.left source.old))
            (ahead self.new (S.left source.new))) }
        ensures none { result ≡ Ok None → self.new ≡ record { pending = []; ended = true } }
        ensures same { OnErr result
            (TakesOff [] (ahead self.old (S.left source.old)) (ahead self.new (S.left source.new))) }
        ensures err { OnErr result (self.new ≡ record { pending = []; ended = false }) }
        ensures counted { S.faults source.old ≤ S.faults source.new }
        ensures caused { OnErr result (HasRisen (S.faults source.old) (S.faults source.new)) }
        ensures faultless { OnOk result (S.faults source.new ≡ S.faults source.old) }
        ensures after_end { self.old.ended ≡ true → (source.new ≡ source.old) × (self.new.ended ≡ true) }
        ensures sees { SawTheEnd self.old (S.left source.old) → SawTheEnd self.new (S.left source.new) }
    {
        self.make_ready(source)?;
        Ok(self.pop())
    }
}

/// Returns how many bytes stand before the first line feed.
fn run_length(bytes: &[u8]) -> usize
    ensures within { result ≤ length bytes.now }
    ensures feedless { All (λ byte. byte ≢ 10) (take result bytes.now) }
{
    bytes
        .iter()
        .position(|byte| *byte == b'\n')
        .unwrap_or(bytes.len())
}

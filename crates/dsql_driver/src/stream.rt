ghost use Rattle.std.specs.Prelude.{◌≡◌, ◌≤◌, ◌<◌, ◌++◌, ℕ, List, Option, IfOk, OnOk, OnErr, length, take, option_map};
ghost use Rattle.dsql_driver.specs.Streams.{HasRisen, Takes};

use thiserror::Error;

/// A read or a write that failed. It took or appended nothing.
#[derive(Clone, Copy, Debug, PartialEq, Eq, Error)]
#[error("the stream failed")]
pub struct Failed;

/// A source of a script's bytes.
pub trait Source {
    /// The bytes that are left, if the source reports them.
    ghost left: { Self → Option (List ℕ) };
    /// How often the source failed.
    ghost faults: { Self → ℕ };

    /// Takes the next bytes into the front of the buffer, and returns how many it took. If the buffer isn't
    /// empty, 0 means the end.
    fn read(&mut self, buf: &mut [u8]) -> Result<usize, Failed>
        ensures within { IfOk result (λ n. n ≤ length buf.old) }
        ensures taken { IfOk result (λ n. Takes n (left self.old) (left self.new) buf.new) }
        ensures failed { OnErr result (left self.new ≡ left self.old) }
        ensures counted { faults self.old ≤ faults self.new }
        ensures caused { OnErr result (HasRisen (faults self.old) (faults self.new)) }
        ensures faultless { OnOk result (faults self.new ≡ faults self.old) };
}

/// A sink that takes a report's bytes.
pub trait Sink {
    /// The bytes that the sink holds, if it reports them.
    ghost written: { Self → Option (List ℕ) };
    /// How often the sink failed.
    ghost faults: { Self → ℕ };

    /// Appends a front part of the piece, and returns the number of bytes appended. It is at least one if the
    /// piece isn't empty.
    fn write(&mut self, piece: &[u8]) -> Result<usize, Failed>
        ensures within { IfOk result (λ n. n ≤ length piece.now) }
        ensures progress { IfOk result (λ n. 0 < length piece.now → 0 < n) }
        ensures appended { IfOk result (λ n. written self.new
            ≡ option_map (λ w. w ++ take n piece.now) (written self.old)) }
        ensures failed { OnErr result (written self.new ≡ written self.old) }
        ensures counted { faults self.old ≤ faults self.new }
        ensures caused { OnErr result (HasRisen (faults self.old) (faults self.new)) }
        ensures faultless { OnOk result (faults self.new ≡ faults self.old) };
}

ghost use Rattle.std.specs.Prelude.{◌≡◌, ◌<◌, ◌≤◌, ◌++◌, [], OnOk, OnErr, IfErr, length, take, option_map};
ghost use Rattle.dsql_driver.specs.Streams.{HasRisen};
ghost use Rattle.dsql_driver_stream.specs.Faults.{GivenUp};

use dsql_driver::{Failed, Sink};
use thiserror::Error;

/// The failure of a sink in the middle of a piece.
#[derive(Clone, Copy, Debug, PartialEq, Eq, Error)]
#[error("the write failed after {written} bytes")]
pub struct Cut {
    /// How many bytes of the piece were written.
    pub written: usize,
}

/// Writes the whole piece, in as many writes as the sink needs. If the piece is empty, it doesn't call the
/// sink. It gives up at the first write that fails, and what was written until then stays.
pub fn write_whole<K: Sink>(sink: &mut K, piece: &[u8]) -> Result<(), Cut>
    ensures ok { OnOk result (K.written sink.new ≡ option_map (λ w. w ++ piece.now) (K.written sink.old)) }
    ensures empty { piece.now ≡ [] → (result ≡ Ok tt) × (sink.new ≡ sink.old) }

    // A fault cuts the piece: what was written until then is a front of it.
    ensures cut { IfErr result (λ cut. cut.written < length piece.now) }
    ensures front { IfErr result (λ cut. K.written sink.new
        ≡ option_map (λ w. w ++ take cut.written piece.now) (K.written sink.old)) }
    ensures caused { IfErr result (λ _. HasRisen (K.faults sink.old) (K.faults sink.new)) }
    ensures given_up { OnErr result (GivenUp K.Sink sink.old sink.new) }

    ensures counted { K.faults sink.old ≤ K.faults sink.new }
    ensures faultless { OnOk result (K.faults sink.new ≡ K.faults sink.old) }
{
    let mut written = 0;
    while written < piece.len() {
        match sink.write(&piece[written..]) {
            Ok(n) => written += n,
            Err(Failed) => return Err(Cut { written }),
        }
    }
    Ok(())
}

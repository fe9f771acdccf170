//! Writes a generated script to a sink, piece by piece.
ghost use Rattle.std.specs.Prelude.{◌≡◌, ◌≤◌, ◌++◌, OnOk, OnErr, true};
ghost use Rattle.dsql_driver_stream.specs.Faults.{CountsFaults, GivenUp};
ghost use Rattle.dsql_script_show.specs.Report.{ShowsFront, with_text};
ghost use Rattle.dsql_script_generator.specs.Script.{generated};
ghost use Rattle.dsql_script_generator.specs.Faults.{is_sink_fault};
ghost use Rattle.dsql_script_generator.specs.declared.pieces.GenerateFault.TheVariants as faults;

use crate::lines::append_line;
use dsql_driver::Sink;
use dsql_driver_stream::{Cut, write_whole};
use dsql_value::Memory;
use std::alloc::Global;
use thiserror::Error;

/// The most lines that one piece has.
const PIECE: u32 = 256;

/// Why not all of a script was written.
#[derive(Clone, Copy, Debug, PartialEq, Eq, Error)]
pub enum GenerateFault {
    /// The sink failed.
    #[error("the write failed")]
    Failed,
    /// No memory was left for a piece.
    #[error("out of memory")]
    Memory,
}

impl From<Cut> for GenerateFault {
    ghost from_gives = { λ _ fault. fault ≡ faults.Failed };

    fn from(_cut: Cut) -> GenerateFault {
        GenerateFault::Failed
    }
}

impl From<Memory> for GenerateFault {
    ghost from_gives = { λ _ fault. fault ≡ faults.Memory };

    fn from(_e: Memory) -> GenerateFault {
        GenerateFault::Memory
    }
}

/// Replaces the content of `lines` by the lines of a script after line `first`, up to line `last`.
fn spell(first: u32, last: u32, lines: &mut Vec<u8>) -> Result<(), Memory>
    requires { first ≤ last }
    ensures { OnOk result (generated last ≡ generated first ++ lines.new.items) }
{
    lines.clear();
    for line in first..last {
        append_line(line + 1, lines)?;
    }
    Ok(())
}

/// Writes a script of `lines` lines to `output`.
///
/// Fails with `Failed` at the first write that fails, and with `Memory` if no memory is left for a piece. What
/// was written until then stays, and is a beginning of the script.
pub fn generate<K: Sink>(alloc: Global, lines: u32, output: &mut K) -> Result<(), GenerateFault>
    ensures ok { OnOk result (K.written output.new ≡ with_text (K.written output.old) (generated lines)) }
    ensures front { OnErr result (ShowsFront (K.written output.old) (generated lines) (K.written output.new)) }
    ensures faults { CountsFaults (is_sink_fault result) (K.faults output.old) (K.faults output.new) }
    ensures given_up { is_sink_fault result ≡ true → GivenUp K.Sink output.old output.new }
{
    let mut piece = Vec::new(alloc);
    let mut written = 0;
    while written < lines {
        let next = written + PIECE.min(lines - written);
        spell(written, next, &mut piece)?;
        write_whole(output, &piece)?;
        written = next;
    }
    Ok(())
}

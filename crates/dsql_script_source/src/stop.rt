ghost use Rattle.std.specs.Prelude.{◌≡◌};
ghost use Rattle.dsql_script_source.specs.declared.stop.Stop.TheVariants as stops;

use dsql_driver_stream::ReadFault;
use dsql_history::Memory;
use dsql_script_reader::LineFault;
use std::error::Error;
use std::fmt;

/// Why a run stops before its script's end.
#[derive(Clone, Copy, Debug)]
pub enum Stop {
    /// The source failed.
    Read,
    /// The sink of the report failed.
    Write,
    /// Memory was lacking.
    Memory,
    /// A line of the script is refused. Lines are numbered from 1, including skipped ones.
    Refused {
        /// The line's number.
        number: u32,
        /// The reason for which it is refused.
        fault: LineFault,
    },
    /// The run has as many events as it may have.
    Full,
}

impl fmt::Display for Stop {
    ghost use Rattle.std.specs.Prelude.{Some};
    ghost use Rattle.dsql_script_source.specs.Stops.{stop_text};

    ghost output = { λ stop. Some (stop_text stop) };

    fn fmt<W: fmt::Write>(&self, f: &mut fmt::Formatter<W>) -> fmt::Result {
        match self {
            Stop::Read => write!(f, "read fault"),
            Stop::Write => write!(f, "write fault"),
            Stop::Memory => write!(f, "out of memory"),
            Stop::Refused { number, fault } => write!(f, "line {number}: {fault}"),
            Stop::Full => write!(f, "too many events"),
        }
    }
}

impl Error for Stop {}

impl From<ReadFault> for Stop {
    ghost use Rattle.dsql_script_source.specs.Stops.{stop_of_read};

    ghost from_gives = { λ fault stop. stop ≡ stop_of_read fault };

    fn from(fault: ReadFault) -> Stop {
        match fault {
            ReadFault::Failed => Stop::Read,
            ReadFault::Memory => Stop::Memory,
        }
    }
}

impl From<Memory> for Stop {
    ghost from_gives = { λ _ stop. stop ≡ stops.Memory };

    fn from(_e: Memory) -> Stop {
        Stop::Memory
    }
}

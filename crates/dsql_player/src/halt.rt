ghost use Rattle.std.specs.Prelude.{◌≡◌};
ghost use Rattle.dsql_player.specs.declared.halt.Halt.TheVariants as halts;

use dsql_engine::{ControlFault, HeardBack, NoRoom};
use dsql_engine_laws::Memory;

/// Why a run stops before its end.
#[derive(Clone, Copy, Debug, PartialEq, Eq)]
pub enum Halt {
    /// There was no memory in the core, in the driver, or for the tables of wires and of clients.
    Memory,
    /// The run has as many events as it may have.
    Full,
}

impl From<NoRoom> for Halt {
    ghost from_gives = { λ _ e. e ≡ halts.Memory };

    fn from(_e: NoRoom) -> Halt {
        Halt::Memory
    }
}

impl From<ControlFault> for Halt {
    ghost from_gives = { λ _ e. e ≡ halts.Memory };

    fn from(_e: ControlFault) -> Halt {
        Halt::Memory
    }
}

impl From<HeardBack> for Halt {
    ghost from_gives = { λ _ e. e ≡ halts.Memory };

    fn from(_back: HeardBack) -> Halt {
        Halt::Memory
    }
}

impl From<Memory> for Halt {
    ghost from_gives = { λ _ e. e ≡ halts.Memory };

    fn from(_e: Memory) -> Halt {
        Halt::Memory
    }
}

use dsql_engine_hearing::NoRoom;
use thiserror::Error;

/// Why a limit or a moment isn't set. Nothing changed.
#[derive(Clone, Copy, Debug, PartialEq, Eq, Error)]
pub enum ControlFault {
    /// There was no memory for the step.
    #[error("out of memory")]
    NoRoom,
}

impl From<NoRoom> for ControlFault {
    fn from(_e: NoRoom) -> ControlFault {
        ControlFault::NoRoom
    }
}

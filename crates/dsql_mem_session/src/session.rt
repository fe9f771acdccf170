ghost use Rattle.std.specs.Prelude.{◌≡◌};

use crate::undo::Undo;
use dsql_driver_session::Session;
use std::alloc::Global;

/// What the driver keeps for one connection: its live handles and cursors, and what the writes of its open transaction
/// replaced.
#[derive(Drop)]
pub struct MemSession {
    pub live: Session,
    pub undo: Undo,
}

impl MemSession {
    ghost use Rattle.dsql_mem_session.specs.Session.{new_session};

    /// Returns the session of a new connection.
    pub fn new(alloc: Global) -> MemSession
        ensures { result ≡ new_session }
    {
        MemSession {
            live: Session::new(alloc),
            undo: Undo::none(),
        }
    }
}

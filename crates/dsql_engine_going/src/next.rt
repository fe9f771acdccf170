use dsql_engine_desk::Leave;

/// Why a call can't move.
#[derive(Clone, Copy, Debug, PartialEq, Eq)]
pub enum Why {
    /// The call waits for a connection.
    Connection,
    /// A connection is being opened for it.
    Opening,
    /// Another call's driver call is under way on this connection, on which its own is to be made.
    Turn(u32),
}

/// What follows one step.
#[derive(Drop)]
pub enum Next {
    /// This driver call is to be made, and its answer brought back.
    Send(Leave),
    /// The call can't move.
    Blocked(Why),
    /// The call of this number has its reply.
    Reply(u32),
    /// There is nothing to do.
    Quiet,
}

use dsql_tenure_journal::Owner;

/// Why a connection is closed.
#[derive(Clone, Copy)]
pub enum CloseCause {
    /// The driver said that it is bad.
    Bad,
    /// The driver's test of it failed.
    Invalid,
    /// More connections are open than the open limit allows.
    OverLimit,
    /// Enough connections are idle.
    IdleFull,
    /// The connection has lived longer than the lifetime.
    Lifetime,
    /// The connection was idle for longer than the idle time.
    IdleTime,
    /// The database was closed.
    DbClosed,
    /// A transaction on the connection was cancelled.
    Discarded,
}

/// A move of a connection among the four sets: opening, lent, idle and closing.
#[derive(Clone, Copy)]
pub enum Move {
    /// The connection begins to be opened for a call, or for no request of its own if `call` is 0.
    OpenStart {
        conn: u32,
        call: u32,
    },
    /// The connection is lent to an owner, in a new tenure.
    Lend {
        conn: u32,
        tenure: u32,
        owner: Owner,
        call: u32,
    },
    /// The connection is given back and is idle.
    Back {
        conn: u32,
    },
    /// The connection begins to be closed.
    CloseStart {
        conn: u32,
        cause: CloseCause,
    },
    /// The connection was shut and is gone.
    Gone {
        conn: u32,
    },
    /// The connection couldn't be opened, and the fault falls to a call, or to none if `call` is 0.
    Fell {
        conn: u32,
        call: u32,
    },
}

/// What a journal says of a connection that is given back.
#[derive(Clone, Copy)]
pub enum Fate {
    /// The journal says nothing against it.
    Good,
    /// The driver said that it is bad.
    Bad,
    /// The driver's test of it failed.
    Invalid,
    /// A transaction on the connection was cancelled.
    Discarded,
}

/// What happens to a connection that was given back, or that was opened and isn't wanted.
#[derive(Clone, Copy)]
pub enum Outcome {
    /// The connection closes, for this cause.
    Closes(CloseCause),
    /// The connection goes to the request that has waited longest.
    Serves,
    /// The connection becomes idle.
    Rests,
}

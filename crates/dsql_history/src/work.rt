use dsql_history_work::{Dests, Label, Level};

/// Where a call's statement is carried out: on a connection of the call's own, or on the one that this call holds for
/// its transaction. The number is 0 if no transaction has the label.
#[derive(Clone, Copy, Debug, PartialEq, Eq)]
pub enum Scope {
    Db,
    Held(u32),
}

/// What becomes of a statement.
#[derive(Drop)]
pub enum Task {
    /// It is executed.
    Execute,
    /// It is queried, and one row is read into these destinations.
    ReadOne(Dests),
    /// It is queried, and the rows are handed out under this label.
    HandOut(Label),
}

/// The work that a call has to do.
#[derive(Drop)]
pub enum Work {
    /// It carries out a statement in this scope.
    Statement(Scope, Task),
    /// It begins a transaction on a connection of its own, and hands out the transaction under this label.
    Begin {
        label: Label,
        level: Level,
        read_only: bool,
    },
    /// It ends the transaction that this call began, 0 if no transaction has the label.
    End(u32),
    /// It pings a connection of its own, if the driver can ping.
    Ping,
    /// It fetches a row from the rows that this call handed out, 0 if no rows have the label.
    Fetch(u32),
    /// It closes the rows that this call handed out, 0 if no rows have the label.
    Close(u32),
    /// It reads the state of the layer and sends nothing.
    Look,
}

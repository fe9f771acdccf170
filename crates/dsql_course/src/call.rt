/// A driver call of a call's course, without the text and arguments that are sent with it.
#[derive(Clone, Copy)]
pub enum Due {
    /// Runs the text.
    Text,
    /// Prepares the text.
    Prepare,
    /// Runs a handle.
    Handle(u32),
    /// Fetches a row of a cursor.
    Next(u32),
    /// Closes a cursor.
    CloseRows(u32),
    /// Closes a handle.
    CloseStmt(u32),
    Ping,
    Begin,
    Rollback,
    /// No driver call: nothing more comes.
    Over,
}

/// What a driver answered, as far as later calls depend on it.
#[derive(Clone, Copy)]
pub enum Got {
    Done,
    Result,
    Cursor(u32),
    Prepared { handle: u32, inputs: i32 },
    Row,
    End,
    Skip,
    Fail,
    Bad,
}

/// What a call does with its text.
#[derive(Clone, Copy, Debug, PartialEq, Eq)]
pub enum Aim {
    /// The text is executed.
    Execute,
    /// The text is queried, and one row is read.
    ReadOne,
    /// The text is queried, and the rows are handed out.
    HandOut,
    /// The call has no text, and pings the connection.
    Ping,
}

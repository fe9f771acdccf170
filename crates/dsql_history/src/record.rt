use crate::reply::Reply;
use dsql_history_work::{DriverAnswer, Params, Txt};

/// The outcome of a call's try to get a connection.
#[derive(Drop)]
pub enum Try {
    /// The pool lent the call a connection.
    Served,
    /// The pool lent the call a connection that turned out to be bad before anything was decided.
    Lost,
    /// The driver couldn't open a connection for the call, and its answer fell to the call.
    Refused(DriverAnswer),
}

/// A driver call that is under way: the call that sent it, and the connection on which the layer makes it.
#[derive(Clone, Copy, Debug, PartialEq, Eq)]
pub struct Flight {
    pub call: u32,
    pub conn: u32,
}

/// Where an unfinished call stands between two steps.
#[derive(Clone, Copy, Debug, PartialEq, Eq)]
pub enum Stand {
    /// The call waits for a connection.
    Waits,
    /// This connection is being opened for the call.
    Opens(u32),
    /// A driver call of the call is under way on this connection, or starts as soon as the turn there is free.
    Sends(u32),
    /// The call replies at its next step. Others have settled its reply, or it rests with a connection on which
    /// it has nothing to send.
    Replies,
    /// The call asks for a connection again at its next step, because the one to be opened for it was bad.
    Asks,
}

/// The state of a call.
#[derive(Drop)]
pub struct CallRecord {
    /// The client that made it.
    pub client: u8,
    /// The text of its statement.
    pub text: Txt,
    /// The parameters that its arguments become, if none of them is refused.
    pub params: Params,
    /// The reply that the call itself has settled: as it enters, if it sends nothing, otherwise by its deciding
    /// answer.
    pub decided: Option<Reply>,
}

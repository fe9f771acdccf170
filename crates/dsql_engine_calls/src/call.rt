use crate::tried::Tried;
use dsql_history::{CallRecord, Params, Reply, TxEnd, Txt, Work};

/// What the layer records of a call.
#[derive(Drop)]
pub struct CallRow {
    /// The state of the call.
    pub call: CallRecord,
    /// What the call has to do.
    pub work: Work,
    /// The call's tries to get a connection, as long as it has no reply.
    pub tried: Tried,
    /// The call that ended the rows that this call handed out. It is 0 if no call did, or if the end of the run
    /// ended them.
    pub ender: u32,
    /// The call that ended the transaction that this call began. It is 0 if no call did, or if the end of the
    /// run ended it.
    pub tx_ender: u32,
}

/// The end of the transaction that a call began.
#[derive(Clone, Copy, Debug)]
pub struct Ending {
    pub tx: u32,
    pub by: TxEnd,
}

/// What the layer records of a call that enters, with the memory for it.
#[derive(Drop)]
pub struct CallStart {
    pub work: Work,
    /// The text of its statement, which is empty if it has none, and the parameters that its arguments become.
    pub text: Txt,
    pub params: Params,
    /// The label of the rows that it hands out, if it hands out rows.
    pub label: Option<String>,
    /// The label of the transaction that it begins, if it begins one.
    pub tx_label: Option<String>,
    /// The query whose rows it closes as it enters, if it closes any.
    pub closes: Option<u32>,
    /// The transaction that it ends as it enters, with its rows, if it ends one.
    pub ends: Option<Ending>,
    /// Its reply, if it gets one at once.
    pub decided: Option<Reply>,
}

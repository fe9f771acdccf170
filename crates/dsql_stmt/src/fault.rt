use thiserror::Error;

/// The failure that the statement was closed before. `call` is the number of the call that closed it first, or
/// 0 if no client's call did.
#[derive(Clone, Copy, Debug, Error)]
#[error("sql: statement is closed")]
pub struct StmtClosed {
    pub call: u32,
}

ghost use Rattle.std.specs.Prelude.{◌≡◌};

use dsql_value::{Params, Txt};
use std::alloc::AllocError;

/// What a statement is run from: its text, or the handle that a Prepare gave for it.
#[derive(Drop)]
pub enum Input {
    Text(Txt),
    Handle(u32),
}

impl Clone for Input {
    ghost is_clone = { λ x y. y ≡ x };

    fn clone(&self) -> Result<Input, AllocError> {
        Ok(match self {
            Input::Text(text) => Input::Text(text.clone()?),
            Input::Handle(handle) => Input::Handle(*handle),
        })
    }
}

/// The isolation level of a transaction, as Go's `sql.IsolationLevel`.
#[derive(Clone, Copy)]
pub enum Level {
    Default,
    ReadUncommitted,
    ReadCommitted,
    WriteCommitted,
    RepeatableRead,
    Snapshot,
    Serializable,
    Linearizable,
}

/// One call to a driver on one connection. Each is a method of Go's driver interfaces. Of a connection: `Connector`'s
/// Connect, `SessionResetter`'s ResetSession, `Validator`'s IsValid, `Pinger`'s Ping, and `Conn`'s Close. Of statements
/// and rows: `ConnPrepareContext`, `ExecerContext`, `QueryerContext`, `StmtExecContext`, `StmtQueryContext`, `Stmt`'s
/// Close, and `Rows`' Next and Close. Of transactions: `ConnBeginTx`, and `Tx`'s Commit and Rollback.
#[derive(Drop)]
pub enum DriverCall {
    Connect,
    Reset,
    Valid,
    Ping,
    Prepare(Txt),
    CloseStmt(u32),
    Exec(Input, Params),
    Query(Input, Params),
    Next(u32),
    CloseRows(u32),
    Begin { level: Level, read_only: bool },
    Commit,
    Rollback,
    Shut,
}

impl Clone for DriverCall {
    ghost is_clone = { λ x y. y ≡ x };

    fn clone(&self) -> Result<DriverCall, AllocError> {
        Ok(match self {
            DriverCall::Connect => DriverCall::Connect,
            DriverCall::Reset => DriverCall::Reset,
            DriverCall::Valid => DriverCall::Valid,
            DriverCall::Ping => DriverCall::Ping,
            DriverCall::Prepare(text) => DriverCall::Prepare(text.clone()?),
            DriverCall::CloseStmt(handle) => DriverCall::CloseStmt(*handle),
            DriverCall::Exec(input, params) => DriverCall::Exec(input.clone()?, params.clone()?),
            DriverCall::Query(input, params) => DriverCall::Query(input.clone()?, params.clone()?),
            DriverCall::Next(rows) => DriverCall::Next(*rows),
            DriverCall::CloseRows(rows) => DriverCall::CloseRows(*rows),
            DriverCall::Begin { level, read_only } => DriverCall::Begin {
                level: *level,
                read_only: *read_only,
            },
            DriverCall::Commit => DriverCall::Commit,
            DriverCall::Rollback => DriverCall::Rollback,
            DriverCall::Shut => DriverCall::Shut,
        })
    }
}

//! Driver calls without the text and the parameters of their statement.
ghost use Rattle.std.specs.Prelude.{◌≡◌, true, IfOk, OnErr};
ghost use Rattle.dsql_engine_exchanged.specs.Filled.{filled, has_statement};
ghost use Rattle.dsql_history.specs.works.Line.{run_for};

use dsql_history::{Aim, DriverCall, Input, Level, Memory, Params, Txt};

/// A driver call without the text and the parameters of its statement.
#[derive(Clone, Copy)]
pub enum BareCall {
    Connect,
    Reset,
    Ping,
    /// Runs the text.
    Text,
    Prepare,
    /// Runs a handle.
    Handle(u32),
    Next(u32),
    CloseRows(u32),
    CloseStmt(u32),
    Begin { level: Level, read_only: bool },
    Commit,
    Rollback,
    Valid,
    Shut,
}

impl BareCall {
    /// Returns the driver call, with copies of the text and the parameters if it has them. Takes no memory
    /// otherwise.
    pub fn filled(self, aim: Aim, text: &Txt, params: &Params) -> Result<DriverCall, Memory>
        ensures ok { IfOk result (λ call. call
            ≡ filled (record { text = text.now; params = params.now; aim = aim }) self) }
        ensures err { OnErr result (has_statement self ≡ true) }
    {
        Ok(match self {
            BareCall::Connect => DriverCall::Connect,
            BareCall::Reset => DriverCall::Reset,
            BareCall::Ping => DriverCall::Ping,
            BareCall::Text => run_of(aim, Input::Text(text.copy()?), params.clone()?),
            BareCall::Prepare => DriverCall::Prepare(text.copy()?),
            BareCall::Handle(handle) => run_of(aim, Input::Handle(handle), params.clone()?),
            BareCall::Next(rows) => DriverCall::Next(rows),
            BareCall::CloseRows(rows) => DriverCall::CloseRows(rows),
            BareCall::CloseStmt(handle) => DriverCall::CloseStmt(handle),
            BareCall::Begin { level, read_only } => DriverCall::Begin { level, read_only },
            BareCall::Commit => DriverCall::Commit,
            BareCall::Rollback => DriverCall::Rollback,
            BareCall::Valid => DriverCall::Valid,
            BareCall::Shut => DriverCall::Shut,
        })
    }
}

/// Returns the run of a text or a handle.
fn run_of(aim: Aim, input: Input, params: Params) -> DriverCall
    ensures { result ≡ run_for aim input params }
{
    match aim {
        Aim::Execute => DriverCall::Exec(input, params),
        Aim::ReadOne | Aim::HandOut | Aim::Ping => DriverCall::Query(input, params),
    }
}

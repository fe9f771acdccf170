//! Asking for a connection with the memory already taken, so that it can't fail for lack of memory.
ghost use Rattle.std.specs.Prelude.{◌≡◌, ◌+◌, ◌<◌, ◌≤◌};
ghost use Rattle.dsql_laws.specs.pool.Pooled.{most_drawn};
ghost use Rattle.dsql_laws.specs.pool.Calls.{MayAsk, asks};
ghost use Rattle.dsql_laws.specs.pool.Decisions.{ask_outcome};
ghost use Rattle.dsql_laws.specs.history.Readers.Pool.{request_at};

use dsql_laws::{AskFault, Asked, Owner, Pool, Request};

/// Lets a call ask for a connection for this owner. `last` says whether this is its last try.
pub fn ask(pool: &mut Pool, call: u32, owner: Owner, last: bool) -> Result<Asked, AskFault>
    requires room { 0 < pool.old.spare }
    requires request { MayAsk (request_at last owner call pool.old.pooled.moment) pool.old.pooled }
    requires drawn { pool.old.pooled.drawn ≤ most_drawn }
    ensures outcome { result ≡ ask_outcome (request_at last owner call pool.old.pooled.moment) pool.old.pooled }
    ensures pooled { pool.new.pooled ≡ asks (request_at last owner call pool.old.pooled.moment) pool.old.pooled }
    ensures spare { pool.old.spare ≤ pool.new.spare + 1 }
{
    let asked = pool.moment();
    let request = Request {
        call,
        owner,
        last,
        token: None,
        asked,
    };
    match pool.ask(request) {
        Ok(outcome) => Ok(outcome),
        Err(AskFault::TooMany) => Err(AskFault::TooMany),
        Err(AskFault::Memory) => unreachable!(),
    }
}

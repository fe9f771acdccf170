//! The reply that an answer to a Query or a Next decides for its call.
ghost use Rattle.std.specs.Prelude.{IfOk};
ghost use Rattle.dsql_engine_desk.specs.Appending.{DecidesNow};
ghost use Rattle.dsql_engine_desk.specs.Desk.{past, Stands};

use crate::desk::Desk;
use dsql_engine_calls::NoRoom;
use dsql_engine_effects::decided_by;
use dsql_laws_calls::{Entry, Reply};
use std::alloc::Global;

#[tactic(auto)]
impl Desk {
    /// Returns the reply that the answer to a Query or a Next decides for the call of an entry. Fails with
    /// `NoRoom` if there is no memory.
    pub fn reply_decided(&self, alloc: Global, entry: &Entry) -> Result<Option<Reply>, NoRoom>
        requires { Stands self.now }
        ensures { IfOk result (DecidesNow (past self.now) entry.now entry.now.answer) }
    {
        decided_by(alloc, &self.calls, entry)
    }
}

//! Permits for the driver calls that the layer may make.
ghost use Rattle.std.specs.Prelude.{◌≡◌, true, IfOk, OnErr};
ghost use Rattle.dsql_engine_hearing.specs.exchanged.Filled.{Carries, carries_statement};
ghost use Rattle.dsql_engine_hearing.specs.history.Rules.Sent.{asked_by};

use crate::engine::Engine;
use dsql_engine_hearing::{Leave, NoRoom, Permit};

#[tactic(auto)]
impl Engine {
    /// Returns the permit for this `leave` when its driver call is to be made. Copies the parts of the
    /// statement that the driver call sends, and takes no memory if it sends none.
    pub fn permit(&self, leave: &Leave) -> Result<Permit, NoRoom>
        requires { Carries (asked_by self.now.past leave.now.call_no) leave.now.call }
        ensures ok { IfOk result (λ permit. permit ≡ leave.now) }
        ensures err { OnErr result (carries_statement leave.now.call ≡ true) }
    {
        Ok(self.desk.permit(self.alloc, leave)?)
    }
}

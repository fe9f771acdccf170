ghost use Rattle.std.specs.Prelude.{◌≡◌};
ghost use Rattle.dsql_tenure_journal.specs.Tenure.{place};

use dsql_driver::{DriverCall, Input};

/// Returns the place of a call in the order in which a call on the database works, or 0 if it has none.
pub fn place(call: &DriverCall) -> u8
    ensures { result ≡ place call.now }
{
    match call {
        DriverCall::Exec(Input::Text(_), _) | DriverCall::Query(Input::Text(_), _) => 1,
        DriverCall::Prepare(_) => 2,
        DriverCall::Exec(Input::Handle(_), _) | DriverCall::Query(Input::Handle(_), _) => 3,
        DriverCall::Next(_) => 4,
        DriverCall::CloseRows(_) => 5,
        DriverCall::CloseStmt(_) => 6,
        _ => 0,
    }
}

//! Where a call stands that has nothing to send.
ghost use Rattle.std.specs.Prelude.{◌≡◌};
ghost use Rattle.dsql_history.specs.course.Made.{or_else};
ghost use Rattle.dsql_history.specs.Rules.Stands.{opens, stands};
ghost use Rattle.dsql_history.specs.declared.record.Stand.TheVariants.{Waits};

use dsql_history::Stand;

/// Returns where a call stands that waits or for which a connection is being opened. `opening` is that
/// connection, if there is one. Returns `None` for any other call.
pub fn waits_or_opens(waits: bool, opening: Option<u32>) -> Option<Stand>
    ensures { result ≡ or_else (stands waits Waits) (opens opening) }
{
    if waits {
        return Some(Stand::Waits);
    }
    match opening {
        Some(conn) => Some(Stand::Opens(conn)),
        None => None,
    }
}

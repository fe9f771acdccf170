//! Well-formed events, which a line of a report may show.
ghost use Rattle.std.specs.Prelude.{◌≡◌};
ghost use Rattle.dsql_script_event_lines.specs.WellFormed as form;

use dsql_history::{DriverAnswer, Event, Op, Target};
use dsql_script_calls::is_name;

/// The greatest number of a client of a script. Clients are numbered from 1.
const CLIENTS: u8 = 64;

fn is_named_target(target: &Target) -> bool
    ensures { result ≡ form.is_named_target target.now }
{
    match target {
        Target::Db => true,
        Target::Label(tx) => is_name(tx.as_str()),
    }
}

fn is_named_op(op: &Op) -> bool
    ensures { result ≡ form.is_named_op op.now }
{
    match op {
        Op::Exec { target, .. } => is_named_target(target),
        Op::Query { label, target, .. } => is_name(label.as_str()) && is_named_target(target),
        Op::One { target, dests, .. } => is_named_target(target) && !dests.as_slice().is_empty(),
        Op::Next { rows } | Op::RowsClose { rows } | Op::Err { rows } => is_name(rows.as_str()),
        Op::Scan { rows, dests } => is_name(rows.as_str()) && !dests.as_slice().is_empty(),
        Op::Begin { label, .. } => is_name(label.as_str()),
        Op::Commit { tx } | Op::Rollback { tx } => is_name(tx.as_str()),
        Op::Ping | Op::DbClose | Op::Stats => true,
    }
}

/// Returns whether a report may show the event. The client of an entry is one of a script. The labels of its
/// operation are names, and the operation has a destination if its kind needs one. What is heard isn't
/// `Memory`.
pub fn is_well_formed(event: &Event) -> bool
    ensures { result ≡ form.is_well_formed event.now }
{
    match event {
        Event::Entered { client, op, .. } => 1 <= *client && *client <= CLIENTS && is_named_op(op),
        Event::Heard(entry) => !matches!(entry.answer, DriverAnswer::Memory),
        _ => true,
    }
}

//! The lists that a pool keeps and makes.
ghost use Rattle.std.specs.Prelude.{◌≡◌, ◌+◌, ◌≤◌, [], length, map, vec_len, vec_capacity};
ghost use Rattle.std.specs.List.{filter_map};
ghost use Rattle.dsql_pool.specs.Pooled.{without};
ghost use Rattle.dsql_pool.specs.Decisions.{closing_at};
ghost use Rattle.dsql_pool.specs.declared.moves.Move.TheVariants.{CloseStart};

use crate::conns::Conns;
use crate::moves::{CloseCause, Move};
use dsql_time::{Limits, expired, idled};

/// Removes a number from the list.
pub fn remove_number(numbers: &mut Vec<u32>, number: u32)
    ensures others { numbers.new.items ≡ without number numbers.old.items }
    ensures fewer { vec_len numbers.new ≤ vec_len numbers.old }
    ensures room { vec_capacity numbers.new ≡ vec_capacity numbers.old }
{
    numbers.retain(|other| *other != number);
}

/// Notes the closings of these connections, each for the same cause. `moves` must have memory for them.
pub fn note_closings(conns: &[u32], cause: CloseCause, moves: &mut Vec<Move>)
    requires empty { moves.old.items ≡ [] }
    requires space { length conns.now ≤ vec_capacity moves.old }
    ensures moves { moves.new.items ≡ map (λ c. CloseStart c cause) conns.now }
    ensures len { vec_len moves.new ≤ length conns.now }
    ensures capacity { vec_capacity moves.old ≤ vec_capacity moves.new }
{
    for conn in conns {
        moves.push_reserved(Move::CloseStart { conn: *conn, cause });
    }
}

/// Notes the closings of the idle connections that are past their time under these limits at this moment.
/// `moves` must have memory for all idle connections.
pub fn note_outdated(
    conns: &Conns,
    idle: &[u32],
    limits: Limits,
    moment: u64,
    moves: &mut Vec<Move>,
)
    requires empty { moves.old.items ≡ [] }
    requires space { length idle.now ≤ vec_capacity moves.old }
    ensures moves { moves.new.items ≡ filter_map (closing_at limits moment conns.now.conns) idle.now }
    ensures len { vec_len moves.new ≤ length idle.now }
    ensures capacity { vec_capacity moves.old ≤ vec_capacity moves.new }
{
    for conn in idle {
        if let Some(closing) = closing_at(conns, *conn, limits, moment) {
            moves.push_reserved(closing);
        }
    }
}

fn closing_at(conns: &Conns, conn: u32, limits: Limits, moment: u64) -> Option<Move>
    ensures { result ≡ closing_at limits moment conns.now.conns conn }
{
    let row = match conns.at(conn) {
        Some(row) => row,
        None => return None,
    };
    if idled(row.returned, limits.idle_time, moment) {
        Some(Move::CloseStart {
            conn,
            cause: CloseCause::IdleTime,
        })
    } else if expired(row.created, limits.lifetime, moment) {
        Some(Move::CloseStart {
            conn,
            cause: CloseCause::Lifetime,
        })
    } else {
        None
    }
}

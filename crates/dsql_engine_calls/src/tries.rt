//! Records the tries of calls to get a connection.
ghost use Rattle.std.specs.Prelude.{◌≡◌, vec_len, vec_capacity};
ghost use Rattle.dsql_engine_calls.specs.Calls.{with_row, with_try};
ghost use Rattle.dsql_engine_calls.specs.Tries.{tried_by, tried_by_all};

use crate::call::CallRow;
use dsql_history::{DriverAnswer, Move, Try};
use std::mem::replace;

/// Records the try that a move is, if it is one. `answer` is the driver's answer just before the move.
pub fn note_try(calls: &mut Vec<CallRow>, it: Move, answer: DriverAnswer)
    ensures items { calls.new.items ≡ tried_by answer it calls.old.items }
    ensures len { vec_len calls.new ≡ vec_len calls.old }
    ensures capacity { vec_capacity calls.new ≡ vec_capacity calls.old }
{
    match it {
        Move::Lend { call, .. } => add_try(calls, call, Try::Served),
        Move::Fell { call, .. } => add_try(calls, call, Try::Refused(answer)),
        _ => {}
    }
}

/// Records the tries that these moves are, one after another. `answer` is the driver's answer just before the
/// first move.
pub fn note_tries(calls: &mut Vec<CallRow>, moves: &[Move], answer: DriverAnswer)
    ensures items { calls.new.items ≡ tried_by_all answer moves.now calls.old.items }
    ensures len { vec_len calls.new ≡ vec_len calls.old }
    ensures capacity { vec_capacity calls.new ≡ vec_capacity calls.old }
{
    let mut newest = answer;
    for it in moves {
        note_try(calls, *it, replace(&mut newest, DriverAnswer::Bad));
    }
}

fn add_try(calls: &mut Vec<CallRow>, call: u32, it: Try)
    ensures items { calls.new.items ≡ with_row call (with_try it) calls.old.items }
    ensures len { vec_len calls.new ≡ vec_len calls.old }
    ensures capacity { vec_capacity calls.new ≡ vec_capacity calls.old }
{
    let call = call as usize;
    if call < calls.len() {
        calls[call].tried.add(it);
    }
}

//! Questions about a call, each answered from its work.
ghost use Rattle.std.specs.Prelude.{◌≡◌, false};
ghost use Rattle.dsql_history.specs.journal.Kinds.{is_house, number_of};
ghost use Rattle.dsql_history.specs.Readers.Tries.{tries_again};
ghost use Rattle.dsql_history.specs.Readers.Works.{aim_of, asks, borrower_in, hands_out_in, is_in, owner_as, scope};

use crate::tried::MOST_TRIES;
use dsql_history::{Aim, Owner, Scope, Task, Work};

/// Returns where the statement is carried out. Says nothing about calls on rows or on transactions themselves.
pub fn scope(work: &Work) -> Scope
    ensures { result ≡ scope work.now }
{
    match work {
        Work::Statement(it, _) => *it,
        _ => Scope::Db,
    }
}

/// Returns whether the call asks for a connection of its own.
pub fn asks(work: &Work) -> bool
    ensures { result ≡ asks work.now }
{
    match work {
        Work::Statement(it, _) => matches!(it, Scope::Db),
        Work::Begin { .. } | Work::Ping => true,
        _ => false,
    }
}

/// Returns whether the call asks again if its connection turns out to be bad in the try of this number.
pub fn tries_again(work: &Work, number: u32) -> bool
    ensures { result ≡ tries_again work.now number }
{
    asks(work) && number < MOST_TRIES
}

/// Returns what the layer does with the call's text.
pub fn aim_of(work: &Work) -> Aim
    ensures { result ≡ aim_of work.now }
{
    match work {
        Work::Statement(_, Task::ReadOne(_)) => Aim::ReadOne,
        Work::Statement(_, Task::HandOut(_)) => Aim::HandOut,
        Work::Ping => Aim::Ping,
        _ => Aim::Execute,
    }
}

/// Returns the call to which a connection is lent for the statement of a call: the call itself, or the one that
/// began its transaction.
pub fn borrower_in(scope: Scope, call: u32) -> u32
    ensures { result ≡ borrower_in scope call }
{
    match scope {
        Scope::Db => call,
        Scope::Held(tx) => tx,
    }
}

/// Returns the owner of the tenures of a call with this work: the transaction that it begins, otherwise the
/// call itself.
pub fn owner_as(work: &Work, call: u32) -> Owner
    ensures owner { result ≡ owner_as work.now call }
    ensures not_the_layer { is_house result ≡ false }
    ensures number { number_of result ≡ call }
{
    match work {
        Work::Begin { .. } => Owner::Tx(call),
        _ => Owner::Call(call),
    }
}

/// Returns whether a call with this scope works in that transaction.
pub fn is_in(tx: u32, scope: Scope) -> bool
    ensures { result ≡ is_in tx scope }
{
    match scope {
        Scope::Db => false,
        Scope::Held(own) => own == tx,
    }
}

/// Returns whether the call hands out rows in that transaction.
pub fn hands_out_in(tx: u32, work: &Work) -> bool
    ensures { result ≡ hands_out_in tx work.now }
{
    match work {
        Work::Statement(it, Task::HandOut(_)) => is_in(tx, *it),
        _ => false,
    }
}

//! A table of tokens in the byte order of their names.
ghost use Rattle.std.specs.Prelude.{◌≡◌, ◌≢◌, ◌+◌, ◌-◌, ◌≤◌, [], true, false, IsTrue, IfOk, IfErr, IfSome, OnOk, OnErr, OnSome, IfNone, vec_len, vec_capacity};
ghost use Rattle.std.specs.FinMap.{is_sorted};
ghost use Rattle.dsql_cancel.specs.Registry.{byte_order, was_made, with_token, canceled, at_moment, running_out};
ghost use Rattle.dsql_cancel.specs.Registry as registry;
ghost use Rattle.dsql_cancel.specs.Table.{IsAt, IsGapFor};

use crate::fault::TokenFault;
use crate::token::{Cause, Token};
use dsql_value::{Items, Memory, Txt};
use std::alloc::Global;

/// Names, in order.
pub type Names = Items<Txt>;

/// Returns the place of a name, or fails with the place where it would stand.
pub fn place_of(table: &[(Txt, Token)], name: &Txt) -> Result<usize, usize>
    requires { IsTrue (is_sorted byte_order table.now) }
    ensures found { IfOk result (IsAt table.now name.now) }
    ensures absent { IfErr result (IsGapFor table.now name.now) }
{
    let name = name.as_str();
    table.binary_search_by(|(held, _)| held.as_str().cmp(name))
}

/// Puts a token in its place, if its name is new.
pub fn add(table: &mut Vec<(Txt, Token)>, name: Txt, token: Token) -> Result<(), TokenFault>
    requires { IsTrue (is_sorted byte_order table.old.items) }
    ensures ok { OnOk result (table.new.items ≡ with_token name token table.old.items) }
    ensures fresh { OnOk result (was_made name table.old.items ≡ false) }
    ensures exists { IfErr result (λ e. e ≡ TokenFault.TokenExists → was_made name table.old.items ≡ true) }
    ensures full { IfErr result (λ e. e ≡ TokenFault.Memory → (was_made name table.old.items ≡ false)
        × (vec_capacity table.old ≤ vec_len table.old)) }
    ensures known { IfErr result (λ e. e ≢ TokenFault.NoToken) }
    ensures err { OnErr result (table.new.items ≡ table.old.items) }
    ensures room { vec_capacity table.old - vec_len table.old ≤ vec_capacity table.new - vec_len table.new + 1 }
{
    let at = match place_of(table, &name) {
        Ok(_) => return Err(TokenFault::TokenExists),
        Err(at) => at,
    };
    match table.insert(at, (name, token)) {
        Ok(()) => Ok(()),
        Err(_) => Err(TokenFault::Memory),
    }
}

/// Cancels the token with this name, and returns whether it ran. Returns `None` if there is none.
pub fn cancel_in(table: &mut [(Txt, Token)], name: &Txt) -> Option<bool>
    requires { IsTrue (is_sorted byte_order table.old) }
    ensures after { OnSome result (table.new ≡ canceled name.now table.old) }
    ensures ran { IfSome result (λ ran. ran ≡ registry.runs name.now table.old) }
    ensures made { OnSome result (was_made name.now table.old ≡ true) }
    ensures none { IfNone result (was_made name.now table.old ≡ false) }
    ensures unchanged { IfNone result (table.new ≡ table.old) }
{
    match place_of(table, name) {
        Ok(at) => {
            let entry = &mut table[at];
            let ran = entry.1.runs();
            entry.1 = entry.1.stopped(Cause::Canceled);
            Some(ran)
        }
        Err(_) => None,
    }
}

/// Returns the names of the tokens that their deadlines cancel at this moment.
pub fn names_running_out(alloc: Global, table: &[(Txt, Token)], now: u64) -> Result<Names, Memory>
    ensures ok { IfOk result (λ names. names ≡ running_out now table.now) }
    ensures err { OnErr result (running_out now table.now ≢ []) }
{
    let mut names = Vec::new(alloc);
    for (name, token) in table {
        if token.runs_out(now) {
            names.push(name.copy()?)?;
        }
    }
    Ok(Items::new(names))
}

/// Changes each token to what it is from this moment on.
pub fn pass(table: &mut [(Txt, Token)], now: u64)
    ensures { table.new ≡ at_moment now table.old }
{
    for entry in table.iter_mut() {
        entry.1 = entry.1.at_moment(now);
    }
}

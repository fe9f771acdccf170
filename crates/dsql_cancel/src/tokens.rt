ghost use Rattle.std.specs.Prelude.{◌≡◌, ◌+◌, ◌≤◌, [], length, max, true, false, OnOk, OnErr, IfOk, IfErr};
ghost use Rattle.dsql_cancel.specs.Token.{endless, timed, has_passed};

use crate::fault::{TokenFault, Unknown};
use crate::table::{Names, add, cancel_in, names_running_out, pass, place_of};
use crate::token::{Cause, Token};
use dsql_value::{Memory, Txt};
use std::alloc::Global;
use std::marker::Model;

/// The tokens made so far. Contracts see them as a map from names to tokens, with the present moment in
/// nanoseconds, and for how many calls there is memory.
#[derive(Drop)]
pub struct Tokens {
    table: Vec<(Txt, Token)>,
    moment: u64,
}

impl Model for Tokens {
    ghost use Rattle.std.specs.Prelude.{◌-◌, vec_len, vec_capacity};
    ghost use Rattle.dsql_cancel.specs.Registry.{Registry, IsKept};

    ghost Value = { Registry };

    ghost view = { λ t. record {
      tokens = t.table.items;
      moment = t.moment;
      spare = vec_capacity t.table - vec_len t.table;
    } };

    ghost invariant = { λ t. IsKept t.table.items t.moment };
}

impl Tokens {
    ghost use Rattle.dsql_cancel.specs.Token as token;
    ghost use Rattle.dsql_cancel.specs.Registry.{was_made, with_token, canceled, at_moment, running_out, cause_of, IsKept, RefusesMake, RefusesTick};
    ghost use Rattle.dsql_cancel.specs.Registry as registry;

    /// Returns no tokens, at the moment 0. It takes no memory.
    pub fn new(alloc: Global) -> Tokens
        ensures tokens { result.tokens ≡ [] }
        ensures moment { result.moment ≡ 0 }
    {
        Tokens {
            table: Vec::new(alloc),
            moment: 0,
        }
    }

    /// Makes a token without a deadline.
    pub fn make(&mut self, name: Txt) -> Result<(), TokenFault>
        ensures ok { OnOk result (self.new.tokens ≡ with_token name endless self.old.tokens) }
        ensures fresh { OnOk result (was_made name self.old.tokens ≡ false) }
        ensures refused { IfErr result (RefusesMake self.old name) }
        ensures err { OnErr result (self.new.tokens ≡ self.old.tokens) }
        ensures moment { self.new.moment ≡ self.old.moment }
        ensures spare { self.old.spare ≤ self.new.spare + 1 }
    {
        self.put(name, Token::endless())
    }

    /// Makes a token that is cancelled at the moment `at`, in nanoseconds. Returns true if it is cancelled at
    /// once.
    pub fn make_deadline(&mut self, name: Txt, at: u64) -> Result<bool, TokenFault>
        ensures ok { OnOk result (self.new.tokens ≡ with_token name (timed at self.old.moment) self.old.tokens) }
        ensures fresh { OnOk result (was_made name self.old.tokens ≡ false) }
        ensures at_once { IfOk result (λ canceled. canceled ≡ has_passed at self.old.moment) }
        ensures refused { IfErr result (RefusesMake self.old name) }
        ensures err { OnErr result (self.new.tokens ≡ self.old.tokens) }
        ensures moment { self.new.moment ≡ self.old.moment }
        ensures spare { self.old.spare ≤ self.new.spare + 1 }
    {
        let now = self.moment;
        match self.put(name, Token::timed(at, now)) {
            Ok(()) => Ok(at <= now),
            Err(fault) => Err(fault),
        }
    }

    fn put(&mut self, name: Txt, made: Token) -> Result<(), TokenFault>
        requires { token.runs_out self.old.moment made ≡ false }
        ensures ok { OnOk result (self.new.tokens ≡ with_token name made self.old.tokens) }
        ensures fresh { OnOk result (was_made name self.old.tokens ≡ false) }
        ensures refused { IfErr result (RefusesMake self.old name) }
        ensures err { OnErr result (self.new.tokens ≡ self.old.tokens) }
        ensures moment { self.new.moment ≡ self.old.moment }
        ensures spare { self.old.spare ≤ self.new.spare + 1 }
    {
        add(&mut self.table, name, made)
    }

    /// Cancels a token. Returns true if this call cancelled it: a token that was cancelled before keeps its
    /// cause. It takes no memory.
    pub fn cancel(&mut self, name: &Txt) -> Result<bool, TokenFault>
        ensures ok { OnOk result (self.new.tokens ≡ canceled name.now self.old.tokens) }
        ensures made { OnOk result (was_made name.now self.old.tokens ≡ true) }
        ensures did { IfOk result (λ did. did ≡ registry.runs name.now self.old.tokens) }
        ensures refused { IfErr result (λ e. e ≡ TokenFault.NoToken) }
        ensures absent { OnErr result (was_made name.now self.old.tokens ≡ false) }
        ensures err { OnErr result (self.new.tokens ≡ self.old.tokens) }
        ensures moment { self.new.moment ≡ self.old.moment }
        ensures spare { self.new.spare ≡ self.old.spare }
    {
        match cancel_in(self.table.as_mut_slice(), name) {
            Some(ran) => Ok(ran),
            None => Err(TokenFault::NoToken),
        }
    }

    /// Moves the present moment to `now`, in nanoseconds, unless it is later already. Returns the names of the
    /// tokens that their deadlines cancel at the present moment, in byte order.
    pub fn tick(&mut self, alloc: Global, now: u64) -> Result<Names, TokenFault>
        ensures ok { OnOk result (self.new.tokens ≡ at_moment (max self.old.moment now) self.old.tokens) }
        ensures names { IfOk result (λ names. names ≡ running_out (max self.old.moment now) self.old.tokens) }
        ensures ok_moment { OnOk result (self.new.moment ≡ max self.old.moment now) }
        ensures refused { IfErr result (RefusesTick self.old.tokens (max self.old.moment now)) }
        ensures err { OnErr result (self.new.tokens ≡ self.old.tokens) }
        ensures err_moment { OnErr result (self.new.moment ≡ self.old.moment) }
        ensures spare { self.new.spare ≡ self.old.spare }
    {
        let moment = self.moment.max(now);
        match names_running_out(alloc, &self.table, moment) {
            Ok(names) => {
                self.moment = moment;
                pass(self.table.as_mut_slice(), moment);
                Ok(names)
            }
            Err(Memory) => Err(TokenFault::Memory),
        }
    }

    /// Returns why a token is cancelled, or `None` if it isn't. The deadline of one that isn't cancelled hasn't
    /// passed.
    pub fn cause(&self, name: &Txt) -> Result<Option<Cause>, Unknown>
        ensures cause { result ≡ cause_of name.now self.now.tokens }
        ensures kept { IsKept self.now.tokens self.now.moment }
    {
        match place_of(&self.table, name) {
            Ok(at) => Ok(self.table[at].1.cause),
            Err(_) => Err(Unknown),
        }
    }

    /// Takes memory for this many more calls, up to and including the first call of `make_deadline`.
    pub fn reserve(&mut self, calls: u32) -> Result<(), Memory>
        ensures ok { OnOk result (calls ≤ self.new.spare) }
        ensures tokens { self.new.tokens ≡ self.old.tokens }
        ensures moment { self.new.moment ≡ self.old.moment }
        ensures spare { self.old.spare ≤ self.new.spare }
    {
        self.table.reserve(calls as usize)?;
        Ok(())
    }

    /// Returns how many tokens were made.
    pub fn held(&self) -> u64
        ensures { result ≡ length self.now.tokens }
    {
        self.table.len() as u64
    }
}

ghost use Rattle.std.specs.Prelude.{◌≡◌, ◌+◌, ◌≤◌, [], ◌∷◌, ◌++◌, length, Some, true, false, OnOk, OnErr};
ghost use Rattle.std.specs.Option.{option_copied, option_map};

use crate::end::{TxDone, TxEnd};
use crate::tx::Tx;
use dsql_value::{Memory, Txt};
use indexmap::IndexMap;
use std::alloc::Global;
use std::marker::Model;

/// The transactions that were begun. Contracts see them with their numbers, in the order in which they were
/// begun, and see for how many more calls there is memory.
#[derive(Drop)]
pub struct Txs {
    txs: IndexMap<u32, Tx>,
}

impl Model for Txs {
    ghost use Rattle.indexmap.specs.IndexMap.{spare};
    ghost use Rattle.dsql_tx.specs.Transactions.{Transactions};

    ghost Value = { Transactions };

    ghost view = { λ t. record { txs = t.txs.entries; spare = spare t.txs } };
}

impl Txs {
    ghost use Rattle.dsql_value_numbered.specs.Numbered.{thing_of, was_made, changed, all_changed};
    ghost use Rattle.dsql_tx.specs.Transactions.{begun_on, ended_by, admitted};
    ghost use Rattle.dsql_tx.specs.declared.end.TxEnd.TheVariants.{EndOfRun};

    /// Returns a table without transactions. It takes no memory.
    pub fn new(alloc: Global) -> Txs
        ensures { result.txs ≡ [] }
    {
        Txs {
            txs: IndexMap::new(alloc),
        }
    }

    /// Reserves memory for this many more calls.
    pub fn reserve(&mut self, calls: u32) -> Result<(), Memory>
        ensures ok { OnOk result (calls ≤ self.new.spare) }
        ensures txs { self.new.txs ≡ self.old.txs }
        ensures spare { self.old.spare ≤ self.new.spare }
    {
        self.txs.reserve(calls as usize)?;
        Ok(())
    }

    /// Returns the number of transactions that were begun.
    pub fn held(&self) -> u64
        ensures { result ≡ length self.now.txs }
    {
        self.txs.len() as u64
    }

    /// Returns true if a transaction was begun under that number.
    pub fn was_made(&self, n: u32) -> bool
        ensures { result ≡ was_made n self.now.txs }
    {
        self.txs.contains_key(&n)
    }

    /// Records that a transaction was begun on a connection in that tenure, with the token of that name if
    /// there is one.
    pub fn begun(
        &mut self,
        n: u32,
        conn: u32,
        tenure: u32,
        token: Option<Txt>,
    ) -> Result<(), Memory>
        requires { was_made n self.old.txs ≡ false }
        ensures ok { OnOk result (self.new.txs ≡ self.old.txs ++ (n, begun_on conn tenure token) ∷ []) }
        ensures full { OnErr result (self.old.spare ≡ 0) }
        ensures err { OnErr result (self.new.txs ≡ self.old.txs) }
        ensures spare { self.old.spare ≤ self.new.spare + 1 }
    {
        let tx = Tx {
            conn,
            tenure,
            token,
            ended: None,
        };
        self.txs.insert(n, tx)?;
        Ok(())
    }

    /// Fails with `TxDone` if something has ended the transaction, so that a call on it can't go on. This takes
    /// no memory, and neither does any function below.
    pub fn admit(&self, n: u32) -> Result<(), TxDone>
        requires { was_made n self.now.txs ≡ true }
        ensures { Some result ≡ option_map admitted (thing_of n self.now.txs) }
    {
        self.tx(n).admit()
    }

    /// Ends the transaction, or fails with `TxDone` if something has already ended it: the first end is kept.
    pub fn end(&mut self, n: u32, by: TxEnd) -> Result<(), TxDone>
        requires { was_made n self.old.txs ≡ true }
        ensures admits { Some result ≡ option_map admitted (thing_of n self.old.txs) }
        ensures txs { self.new.txs ≡ changed (ended_by by) n self.old.txs }
        ensures spare { self.new.spare ≡ self.old.spare }
    {
        match self.txs.get_mut(&n) {
            Some(tx) => tx.end(by),
            None => unreachable!(),
        }
    }

    /// Ends all transactions that nothing has ended, at the end of the run.
    pub fn end_all(&mut self)
        ensures txs { self.new.txs ≡ all_changed (ended_by EndOfRun) self.old.txs }
        ensures spare { self.new.spare ≡ self.old.spare }
    {
        for index in 0..self.txs.len() {
            let _ = self.txs[index].end(TxEnd::EndOfRun);
        }
    }

    /// Returns the connection on which the transaction was begun.
    pub fn conn(&self, n: u32) -> u32
        requires { was_made n self.now.txs ≡ true }
        ensures { Some result ≡ option_map (λ tx. tx.conn) (thing_of n self.now.txs) }
    {
        self.tx(n).conn
    }

    /// Returns the tenure of that connection in which the transaction was begun.
    pub fn tenure(&self, n: u32) -> u32
        requires { was_made n self.now.txs ≡ true }
        ensures { Some result ≡ option_map (λ tx. tx.tenure) (thing_of n self.now.txs) }
    {
        self.tx(n).tenure
    }

    /// Returns the name of the token that the transaction was begun with, if there is one.
    pub fn token(&self, n: u32) -> Option<&Txt>
        requires { was_made n self.now.txs ≡ true }
        ensures { Some (option_copied result) ≡ option_map (λ tx. tx.token) (thing_of n self.now.txs) }
    {
        self.tx(n).token.as_ref()
    }

    fn tx(&self, n: u32) -> &Tx
        requires { was_made n self.now.txs ≡ true }
        ensures { Some result.now ≡ thing_of n self.now.txs }
    {
        self.txs.get(&n).unwrap()
    }
}

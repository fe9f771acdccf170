ghost use Rattle.std.specs.Prelude.{◌≡◌, ◌||◌};
ghost use Rattle.dsql_driver.specs.Kinds.{is_bad, is_valid};
ghost use Rattle.dsql_tenure_journal.specs.Kinds.{is_house, is_call, is_tx_number, is_pin, same_owner, number_of};
ghost use Rattle.dsql_tenure_journal.specs.Permits.{entry_of};

use dsql_driver::{DriverAnswer, DriverCall};

/// Who holds a connection during a tenure. It is a call on the database, a transaction or a pinned connection, each by
/// its number. Or it is the layer itself, which opens and closes connections.
#[derive(Clone, Copy)]
pub enum Owner {
    Call(u32),
    Tx(u32),
    Pin(u32),
    House,
}

impl Owner {
    /// Returns whether the owner is the layer itself.
    pub fn is_house(self) -> bool
        ensures { result ≡ is_house self }
    {
        matches!(self, Owner::House)
    }

    /// Returns whether the owner is a call on the database.
    pub fn is_call(self) -> bool
        ensures { result ≡ is_call self }
    {
        matches!(self, Owner::Call(_))
    }

    /// Returns whether a transaction of this number may stand in a tenure of this owner.
    pub fn owns_transaction(self, tx: u32) -> bool
        ensures { result ≡ (is_tx_number tx self || is_pin self) }
    {
        match self {
            Owner::Tx(own) => own == tx,
            Owner::Pin(_) => true,
            Owner::Call(_) | Owner::House => false,
        }
    }

    /// Returns whether both are the same owner.
    pub fn is_same(self, other: Owner) -> bool
        ensures { result ≡ same_owner self other }
    {
        match (self, other) {
            (Owner::Call(n), Owner::Call(m))
            | (Owner::Tx(n), Owner::Tx(m))
            | (Owner::Pin(n), Owner::Pin(m)) => n == m,
            (Owner::House, Owner::House) => true,
            _ => false,
        }
    }

    /// Returns the number of the owner, or 0 for the layer itself.
    pub fn number(self) -> u32
        ensures { result ≡ number_of self }
    {
        match self {
            Owner::Call(n) | Owner::Tx(n) | Owner::Pin(n) => n,
            Owner::House => 0,
        }
    }
}

/// A line of a connection's journal: one driver call with its answer.
///
/// Connections and their tenures are numbered from 1. `call_no` is the number of the client's call that sent
/// it, or 0 for the layer itself. `tx` is its transaction, or 0 for none.
#[derive(Drop)]
pub struct Entry {
    pub conn: u32,
    pub tenure: u32,
    pub owner: Owner,
    pub call_no: u32,
    pub tx: u32,
    pub call: DriverCall,
    pub answer: DriverAnswer,
}

impl Entry {
    /// Returns whether nothing comes after this entry in its call: it was answered Bad, or it was the test of
    /// its connection.
    pub fn ends_line(&self) -> bool
        ensures { result ≡ (is_bad self.now.answer || is_valid self.now.call) }
    {
        self.answer.is_bad() || self.call.is_valid()
    }
}

/// Leave to make one driver call: an entry without its answer.
#[derive(Drop)]
pub struct Permit {
    pub conn: u32,
    pub tenure: u32,
    pub owner: Owner,
    pub call_no: u32,
    pub tx: u32,
    pub call: DriverCall,
}

impl Permit {
    /// Returns the entry that this answer makes of the permit. Takes no memory.
    pub fn answered(self, answer: DriverAnswer) -> Entry
        ensures { result ≡ entry_of self answer }
    {
        Entry {
            conn: self.conn,
            tenure: self.tenure,
            owner: self.owner,
            call_no: self.call_no,
            tx: self.tx,
            call: self.call,
            answer,
        }
    }
}

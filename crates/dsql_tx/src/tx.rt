ghost use Rattle.std.specs.Prelude.{◌≡◌};
ghost use Rattle.dsql_tx.specs.Transactions.{admitted, ended_by};

use crate::end::{TxDone, TxEnd};
use dsql_value::Txt;

/// A transaction that was begun: its connection, the connection's tenure, the name of its token if it has one, and what
/// ended it.
#[derive(Drop)]
pub struct Tx {
    pub conn: u32,
    pub tenure: u32,
    pub token: Option<Txt>,
    pub ended: Option<TxEnd>,
}

impl Tx {
    /// Fails with `TxDone` if something has ended the transaction.
    pub fn admit(&self) -> Result<(), TxDone>
        ensures { result ≡ admitted self.now }
    {
        match self.ended {
            Some(by) => Err(TxDone { by }),
            None => Ok(()),
        }
    }

    /// Ends the transaction, or fails with `TxDone` if something has already ended it.
    pub fn end(&mut self, by: TxEnd) -> Result<(), TxDone>
        ensures admits { result ≡ admitted self.old }
        ensures tx { self.new ≡ ended_by by self.old }
    {
        let admits = self.admit();
        if admits.is_ok() {
            self.ended = Some(by);
        }
        admits
    }
}

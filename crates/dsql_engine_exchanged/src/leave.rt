//! The leave to make a driver call.
ghost use Rattle.std.specs.Prelude.{◌≡◌, true, IfOk, OnErr};
ghost use Rattle.dsql_engine_exchanged.specs.Filled.{refilled, filled, carries_statement};

use crate::bare::BareCall;
use crate::statement::Statement;
use dsql_history::{Memory, Owner, Params, Permit, Txt};
use std::marker::Model;

/// The leave to make a driver call. Its text and parameters are copied only when it is made, so the leave takes
/// no memory. Contracts see the permit with both.
#[derive(Drop)]
pub struct Leave {
    conn: u32,
    tenure: u32,
    owner: Owner,
    call_no: u32,
    tx: u32,
    bare: BareCall,
    statement: Statement,
}

impl Model for Leave {
    ghost use Rattle.dsql_engine_exchanged.specs.Filled.{filled, carries_statement};
    ghost use Rattle.dsql_history.specs.journal.declared.entry.Permit.{Permit};

    ghost Value = { Permit };

    ghost view = { λ l. record {
      conn = l.conn;
      tenure = l.tenure;
      owner = l.owner;
      call_no = l.call_no;
      tx = l.tx;
      call = filled l.statement l.bare;
    } };
}

#[tactic(auto, using(crate::proofs::Filled::filled_anew, crate::proofs::Filled::carries))]
impl Leave {
    /// Returns the leave for this driver call of a statement, in this transaction; 0 for none.
    pub fn new(
        conn: u32,
        tenure: u32,
        owner: Owner,
        call_no: u32,
        tx: u32,
        bare: BareCall,
        statement: Statement,
    ) -> Leave
        ensures { result ≡ (record {
          conn = conn;
          tenure = tenure;
          owner = owner;
          call_no = call_no;
          tx = tx;
          call = filled statement bare;
        }) }
    {
        Leave {
            conn,
            tenure,
            owner,
            call_no,
            tx,
            bare,
            statement,
        }
    }

    /// Returns the owner to which its connection is lent.
    pub fn owner(&self) -> Owner
        ensures { result ≡ self.now.owner }
    {
        self.owner
    }

    /// Returns the call whose driver call this is leave for; 0 for the layer.
    pub fn call_no(&self) -> u32
        ensures { result ≡ self.now.call_no }
    {
        self.call_no
    }

    /// Returns the permit, with copies of this text and these parameters if its driver call has them. Takes no
    /// memory otherwise.
    pub fn permit(&self, text: &Txt, params: &Params) -> Result<Permit, Memory>
        ensures ok { IfOk result (λ permit. permit
            ≡ record self.now { call = refilled text.now params.now self.now.call }) }
        ensures err { OnErr result (carries_statement self.now.call ≡ true) }
    {
        Ok(Permit {
            conn: self.conn,
            tenure: self.tenure,
            owner: self.owner,
            call_no: self.call_no,
            tx: self.tx,
            call: self.bare.filled(self.statement.aim(), text, params)?,
        })
    }
}

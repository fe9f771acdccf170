//! The steps in which a call enters or an answer is taken in.
ghost use Rattle.std.specs.Prelude.{◌≡◌, ◌<◌, ◌==◌, cond, true, false, length, None, IfErr, IfOk, OnErr, OnOk};
ghost use Rattle.dsql_engine_hearing.specs.history.Legal.{Legal};
ghost use Rattle.dsql_engine_hearing.specs.history.Readers.Calls.{is_busy, next_call};
ghost use Rattle.dsql_engine_hearing.specs.history.Readers.Labels.{names_fit};
ghost use Rattle.dsql_engine_hearing.specs.history.Rules.Flights.{without_flight};
ghost use Rattle.dsql_engine.specs.Hearing.{MayBeHeard};
ghost use Rattle.dsql_engine_hearing.specs.going.Reaching.{HasGoneOn};
ghost use Rattle.dsql_engine_hearing.specs.going.Stepping.{GoesOnOrRests};
ghost use Rattle.dsql_engine_hearing.specs.laws_steps.Groups.{after_enter, after_heard, most_events};

use crate::engine::Engine;
use crate::paying::{pay, prepare};
use dsql_engine_hearing::{Next, NoRoom, Op, enter_call, hear_answer};
use dsql_wire::Heard;
use std::fmt;
use thiserror::Error;

/// An answer that is handed back because there was no memory to take it in. Nothing changed.
#[derive(Drop, Error)]
#[error("out of memory")]
pub struct HeardBack {
    pub heard: Heard,
}

/// Prints the error's text only, without the answer.
impl fmt::Debug for HeardBack {
    fn fmt<W: fmt::Write>(&self, f: &mut fmt::Formatter<W>) -> fmt::Result {
        fmt::Display::fmt(self, f)
    }
}

#[tactic(auto)]
impl Engine {
    /// Enters a call for a client that has no unfinished call. No call before it may have made the label that it makes.
    /// The call goes on as far as it can by itself.
    pub fn enter(&mut self, client: u8, op: Op) -> Result<Next, NoRoom>
        requires free { is_busy client self.old.past ≡ false }
        requires names { names_fit self.old.past op ≡ true }
        requires room { length self.old.past < most_events }
        ensures group { OnOk result (self.new.past ≡ after_enter self.old.past client op) }
        ensures next { IfOk result (λ next. HasGoneOn self.new.past self.old.flights self.new.flights
            (next_call self.old.past) next) }
        ensures chore { self.new.chore ≡ self.old.chore }
        ensures trimmed { self.new.trimmed ≡ self.old.trimmed }
        ensures err { OnErr result (self.new ≡ self.old) }
        ensures legal { Legal self.new.past }
    {
        let start = self.desk.entering(self.alloc, &op)?;
        pay(&mut self.desk, &mut self.flights)?;
        Ok(enter_call(&mut self.desk, &mut self.flights, client, op, start))
    }

    /// Takes in the driver's answer to a driver call that is under way. Hands the answer back if there is no
    /// memory.
    pub fn heard(&mut self, heard: Heard) -> Result<Next, HeardBack>
        requires may { MayBeHeard self.old heard }
        requires room { length self.old.past < most_events }
        ensures group { OnOk result (self.new.past ≡ after_heard self.old.past heard) }
        ensures next { IfOk result (λ next. GoesOnOrRests self.new.past
            (without_flight heard.call_no self.old.flights) self.new.flights heard.call_no next) }
        ensures chore { OnOk result (self.new.chore ≡ cond (heard.call_no == 0) None self.old.chore) }
        ensures handed_back { IfErr result (λ back. back.heard ≡ heard) }
        ensures trimmed { self.new.trimmed ≡ self.old.trimmed }
        ensures err { OnErr result (self.new ≡ self.old) }
        ensures legal { Legal self.new.past }
    {
        let mut heard = heard;
        match prepare(&mut self.desk, &mut self.flights, self.alloc, &mut heard) {
            Ok(ready) => {
                let entry = heard.into_entry();
                self.chore = chore_after(entry.call_no, self.chore);
                Ok(hear_answer(&mut self.desk, &mut self.flights, entry, ready))
            }
            Err(NoRoom) => Err(HeardBack { heard }),
        }
    }
}

/// Returns the connection on which the layer's own driver call is under way after an answer to this call. Call
/// 0 is the layer, which then has none under way.
fn chore_after(call: u32, chore: Option<u32>) -> Option<u32>
    ensures { result ≡ cond (call == 0) None chore }
{
    if call == 0 { None } else { chore }
}

//! Driver calls with as much of their answers as later calls depend on.
ghost use Rattle.std.specs.Prelude.{◌≡◌, []};
ghost use Rattle.dsql_driver.specs.declared.answer.DriverAnswer.TheVariants as answered;
ghost use Rattle.dsql_tenure_journal.specs.Permits.{entry_of};
ghost use Rattle.dsql_tenure_journal.specs.Tenure as tenure;
ghost use Rattle.dsql_tenure_asked.specs.Asked.{answer_like, entry_like, outcome_of as outcome_in};

use dsql_driver::{DriverAnswer, DriverCall};
use dsql_tenure_journal::{Entry, Owner, Permit};

/// How a call went, as far as the order of calls depends on it.
#[derive(Clone, Copy)]
pub enum Outcome {
    Done,
    Bad,
    Failed,
    Other,
}

/// Returns the outcome of an answer.
fn outcome_of(answer: &DriverAnswer) -> Outcome
    ensures { result ≡ outcome_in answer.now }
{
    match answer {
        DriverAnswer::Done => Outcome::Done,
        DriverAnswer::Bad => Outcome::Bad,
        DriverAnswer::Fail(_) => Outcome::Failed,
        _ => Outcome::Other,
    }
}

/// A driver call with its place and its outcome: an entry, or one that is to come.
#[derive(Clone, Copy)]
pub struct Asked<'a> {
    pub conn: u32,
    pub tenure: u32,
    pub owner: Owner,
    pub call_no: u32,
    pub tx: u32,
    pub call: &'a DriverCall,
    pub outcome: Outcome,
}

impl<'a> Asked<'a> {
    /// Returns the driver call of an entry, with its outcome.
    pub fn of(entry: &'a Entry) -> Asked<'a>
        ensures { entry_like result ≡ record entry.now { answer = answer_like (outcome_in entry.now.answer) } }
    {
        Asked {
            conn: entry.conn,
            tenure: entry.tenure,
            owner: entry.owner,
            call_no: entry.call_no,
            tx: entry.tx,
            call: &entry.call,
            outcome: outcome_of(&entry.answer),
        }
    }

    /// Returns a permit's call with this outcome.
    pub fn of_permit(permit: &'a Permit, outcome: Outcome) -> Asked<'a>
        ensures { entry_like result ≡ entry_of permit.now (answer_like outcome) }
    {
        Asked {
            conn: permit.conn,
            tenure: permit.tenure,
            owner: permit.owner,
            call_no: permit.call_no,
            tx: permit.tx,
            call: &permit.call,
            outcome,
        }
    }

    /// Returns a permit's Begin that is refused. It makes no transaction.
    pub fn of_refused_begin(permit: &'a Permit) -> Asked<'a>
        ensures { entry_like result ≡ record (entry_of permit.now (answered.Fail [])) { tx = 0 } }
    {
        Asked {
            tx: 0,
            ..Asked::of_permit(permit, Outcome::Failed)
        }
    }
}

impl Asked<'_> {
    /// Returns whether the call is a Begin answered Bad or Fail outside transactions.
    pub fn is_refused_begin(&self) -> bool
        ensures { result ≡ tenure.is_refused_begin (entry_like self.now) }
    {
        self.call.is_begin()
            && matches!(self.outcome, Outcome::Bad | Outcome::Failed)
            && self.tx == 0
    }
}

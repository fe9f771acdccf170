//! The driver calls that end a transaction after its rows are closed.
ghost use Rattle.std.specs.Prelude.{◌≡◌, List, option_map};
ghost use Rattle.dsql_history.specs.journal.declared.entry.Entry.{Entry as EntryOf};
ghost use Rattle.dsql_engine_exchanged.specs.Ending.{unended, then_ended, ending_in, bare_end, bare_ending};
ghost use Rattle.dsql_engine_exchanged.specs.Filled.{filled};
ghost use Rattle.dsql_history.specs.declared.event.Event.{Event};
ghost use Rattle.dsql_history.specs.Readers.Course.{caps as caps_of};
ghost use Rattle.dsql_history.specs.Rules.Ending.{end_after};
ghost use Rattle.dsql_history.specs.works.Line.{Asked};

use crate::bare::BareCall;
use dsql_history::{Caps, Entry, TxEnd};

/// What was heard of a transaction's end in its tenure.
#[derive(Clone, Copy, Debug, PartialEq, Eq)]
pub struct Ending {
    /// Its Commit or Rollback was heard.
    pub ended: bool,
    /// The test of its connection was heard.
    pub tested: bool,
    /// The connection is known to be bad.
    pub bad: bool,
}

impl Ending {
    /// Returns the record of a tenure in which nothing was heard yet.
    pub fn new() -> Ending
        ensures { result ≡ unended }
    {
        Ending {
            ended: false,
            tested: false,
            bad: false,
        }
    }

    /// Records one more answer heard in the tenure.
    pub fn hear(&mut self, entry: &Entry)
        ensures { self.new ≡ then_ended entry.now self.old }
    {
        self.ended = entry.call.is_ending() || self.ended;
        self.tested = entry.call.is_valid() || self.tested;
        self.bad = entry.answer.is_bad() || self.bad;
    }

    /// Returns the next driver call that ends the transaction in this way, after its rows are closed. The
    /// result is the same for every tenure in which this was heard of the end.
    pub fn next(self, caps: Caps, end: TxEnd) -> Option<BareCall>
        ensures { (asked : Asked) (before : List Event) (heard : List EntryOf) → caps_of before ≡ caps
            → (ending_in heard).ended ≡ self.ended → (ending_in heard).tested ≡ self.tested
            → option_map (filled asked) result ≡ end_after before self.bad end heard }
    {
        self.bare_next(caps, end)
    }

    fn bare_next(self, caps: Caps, end: TxEnd) -> Option<BareCall>
        ensures { result ≡ bare_ending caps end self }
    {
        if !self.ended {
            Some(ending_call(end))
        } else if caps.validator && !self.bad && !self.tested {
            Some(BareCall::Valid)
        } else {
            None
        }
    }
}

/// Returns the driver call that ends a transaction in this way.
fn ending_call(end: TxEnd) -> BareCall
    ensures { result ≡ bare_end end }
{
    match end {
        TxEnd::Commit => BareCall::Commit,
        TxEnd::Rollback | TxEnd::Cancel(_) | TxEnd::EndOfRun => BareCall::Rollback,
    }
}

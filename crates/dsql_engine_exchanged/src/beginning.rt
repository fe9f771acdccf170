//! The driver calls of a call that begins a transaction.
ghost use Rattle.std.specs.Prelude.{◌≡◌, List, [], ◌∷◌, option_map};
ghost use Rattle.dsql_history.specs.journal.declared.entry.Entry.{Entry as EntryOf};
ghost use Rattle.dsql_engine_exchanged.specs.Beginning.{unbegun, beginning_after, beginning_in, begun_if, bare_begin};
ghost use Rattle.dsql_engine_exchanged.specs.Filled.{filled};
ghost use Rattle.dsql_history.specs.Readers.Lines.{line_among};
ghost use Rattle.dsql_history.specs.Rules.Sent.{begin_line};
ghost use Rattle.dsql_history.specs.works.Exchanges.{exchanges};
ghost use Rattle.dsql_history.specs.works.Line.{Asked};

use crate::bare::BareCall;
use dsql_history::{Caps, DriverCall, Entry, Level};

/// What was heard in the line of a begin, as far as the next driver call depends on it.
#[derive(Clone, Copy, Debug, PartialEq, Eq)]
pub enum Beginning {
    /// Nothing was heard yet.
    Fresh,
    /// Its Reset was heard, and its Begin is next.
    Ready,
    /// Its Begin was done, and the transaction keeps the connection.
    Begun,
    /// Its Begin failed.
    Failed,
    /// The connection is bad or was tested, and nothing follows.
    Over,
}

impl Beginning {
    /// Returns the state in which nothing was heard yet.
    pub fn new() -> Beginning
        ensures { result ≡ unbegun }
    {
        Beginning::Fresh
    }

    /// Records one more answer.
    pub fn hear(&mut self, entry: &Entry)
        ensures { self.new ≡ beginning_after entry.now }
    {
        *self = beginning_after(entry);
    }

    /// Records an answer heard in the transaction, if the call that begins it sent the driver call. Only then
    /// does the answer belong to the line of the begin.
    pub fn hear_if(&mut self, call: u32, entry: &Entry)
        ensures step { self.new ≡ begun_if call entry.now self.old }
        ensures line { (heard : List EntryOf) → exchanges (line_among call heard) ≡ []
            → self.old ≡ beginning_in (line_among call heard)
            → self.new ≡ beginning_in (line_among call (entry.now ∷ heard)) }
    {
        self.hear_own(call, entry);
    }

    fn hear_own(&mut self, call: u32, entry: &Entry)
        ensures { self.new ≡ begun_if call entry.now self.old }
    {
        if entry.call_no == call {
            self.hear(entry);
        }
    }

    /// Returns the next driver call that begins a transaction with these options, after each line in which this
    /// was heard.
    pub fn next(
        self,
        caps: Caps,
        reset_due: bool,
        level: Level,
        read_only: bool,
    ) -> Option<BareCall>
        ensures { (asked : Asked) (line : List EntryOf) → beginning_in line ≡ self → option_map (filled asked) result
            ≡ begin_line caps reset_due (DriverCall.Begin level read_only) line }
    {
        self.bare_next(caps, reset_due, level, read_only)
    }

    fn bare_next(
        self,
        caps: Caps,
        reset_due: bool,
        level: Level,
        read_only: bool,
    ) -> Option<BareCall>
        ensures { result ≡ bare_begin caps reset_due level read_only self }
    {
        match self {
            Beginning::Fresh if reset_due => Some(BareCall::Reset),
            Beginning::Fresh | Beginning::Ready => Some(BareCall::Begin { level, read_only }),
            Beginning::Failed => caps.validator.then_some(BareCall::Valid),
            Beginning::Begun | Beginning::Over => None,
        }
    }
}

/// Returns the state that the newest entry of the line decides.
fn beginning_after(entry: &Entry) -> Beginning
    ensures { result ≡ beginning_after entry.now }
{
    if entry.ends_line() {
        Beginning::Over
    } else if !entry.call.is_begin() {
        Beginning::Ready
    } else if entry.answer.is_done() {
        Beginning::Begun
    } else {
        Beginning::Failed
    }
}

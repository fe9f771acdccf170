//! What the judge keeps of the tenure under way.
ghost use Rattle.std.specs.Prelude.{◌≡◌, ◌<◌, ◌&&◌, ◌||◌, not, List, [], ◌∷◌};
ghost use Rattle.dsql_driver.specs.Fits as fit;
ghost use Rattle.dsql_tenure_journal.specs.declared.entry.Entry.{Entry};
ghost use Rattle.dsql_driver.specs.Kinds as kind;
ghost use Rattle.dsql_tenure_journal.specs.Tenure as tenure;

use crate::place::place;
use dsql_tenure_journal::{Entry, Owner};

/// The handles that the Prepares of a tenure gave.
#[derive(Clone, Copy)]
pub enum Prepared {
    /// The tenure prepared nothing.
    Nothing,
    /// Each Prepare gave this handle.
    Handle(u32),
    /// One Prepare gave no handle, or two gave different ones.
    Otherwise,
}

/// What the judge keeps of the entries of one tenure.
#[derive(Clone, Copy)]
pub struct SoFar {
    /// The owner of the tenure, if it has an entry.
    pub owner: Option<Owner>,
    /// The tenure has a Valid.
    pub tested: bool,
    /// A Reset was answered Bad.
    pub fell: bool,
    /// Some entry was answered Bad.
    pub bad: bool,
    pub pinged: bool,
    /// The tenure has an entry beside Reset and Valid.
    pub worked: bool,
    /// The last place that was taken, in the order in which a call on the database works.
    pub place: u8,
    /// A text was run, and the driver didn't skip it.
    pub ran: bool,
    pub prepared: Prepared,
    /// A Begin outside transactions was refused.
    pub refused: bool,
}

impl SoFar {
    ghost use Rattle.std.specs.Prelude.{max, if◌then◌else◌};
    ghost use Rattle.dsql_driver.specs.Kinds.{is_prepare, given_handle};
    ghost use Rattle.dsql_tenure.specs.SoFar.{so_far, prepared_with};

    /// Returns what is kept of a tenure without entries.
    pub fn nothing() -> SoFar
        ensures { result ≡ so_far [] }
    {
        SoFar {
            owner: None,
            tested: false,
            fell: false,
            bad: false,
            pinged: false,
            worked: false,
            place: 0,
            ran: false,
            prepared: Prepared::Nothing,
            refused: false,
        }
    }

    /// Returns the last place, with one entry more.
    fn place_with(&self, entry: &Entry) -> u8
        ensures { result ≡ max (tenure.place entry.now.call) self.now.place }
    {
        place(&entry.call).max(self.place)
    }

    /// Returns what was prepared, with one entry more.
    fn prepared_with(&self, entry: &Entry) -> Prepared
        ensures { result ≡ (if is_prepare entry.now.call then prepared_with
            (given_handle entry.now.answer) self.now.prepared else self.now.prepared) }
    {
        if !entry.call.is_prepare() {
            return self.prepared;
        }
        match (entry.answer.given_handle(), self.prepared) {
            (Some(handle), Prepared::Nothing) => Prepared::Handle(handle),
            (Some(handle), Prepared::Handle(other)) if handle == other => Prepared::Handle(other),
            _ => Prepared::Otherwise,
        }
    }

    /// Returns what is kept, with one entry more.
    pub fn then(self, entry: &Entry) -> SoFar
        ensures { (earlier : List Entry) → self ≡ so_far earlier → result ≡ so_far (entry.now ∷ earlier) }
    {
        SoFar {
            owner: Some(entry.owner),
            tested: entry.call.is_valid() | self.tested,
            fell: falls(entry) | self.fell,
            bad: entry.answer.is_bad() | self.bad,
            pinged: entry.call.is_ping() | self.pinged,
            worked: is_body(entry) | self.worked,
            place: self.place_with(entry),
            ran: ran(entry) | self.ran,
            prepared: self.prepared_with(entry),
            refused: is_refused_begin(entry) | self.refused,
        }
    }
}

/// Returns whether the entry is a Reset answered Bad.
fn falls(entry: &Entry) -> bool
    ensures { result ≡ (kind.is_reset entry.now.call && kind.is_bad entry.now.answer) }
{
    entry.call.is_reset() && entry.answer.is_bad()
}

/// Returns whether the entry is neither a Reset nor a Valid.
fn is_body(entry: &Entry) -> bool
    ensures { result ≡ tenure.is_body entry.now }
{
    !(entry.call.is_reset() || entry.call.is_valid())
}

/// Returns whether the entry ran a text and the driver didn't skip it.
fn ran(entry: &Entry) -> bool
    ensures { result ≡ (kind.runs_text entry.now.call && not (fit.is_skip entry.now.answer)) }
{
    entry.call.runs_text() && !entry.answer.is_skip()
}

/// Returns whether the entry is a Begin outside transactions answered Bad or Fail.
fn is_refused_begin(entry: &Entry) -> bool
    ensures { result ≡ tenure.is_refused_begin entry.now }
{
    entry.call.is_begin() && entry.answer.is_failure() && entry.tx == 0
}

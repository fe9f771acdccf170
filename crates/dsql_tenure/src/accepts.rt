//! Which entries may come next, by the tables.
ghost use Rattle.std.specs.Prelude.{◌≡◌, ◌&&◌, ◌||◌, ◌==◌, not, length, Some, ◌∷◌};
ghost use Rattle.std.specs.List.{list_all};
ghost use Rattle.dsql_driver.specs.Fits.{is_memory};
ghost use Rattle.dsql_tenure_journal.specs.HandlesAndCursors as handles;
ghost use Rattle.dsql_tenure_journal.specs.Journal.{may_follow};
ghost use Rattle.dsql_driver.specs.Kinds.{is_ending, is_connect, is_shut};
ghost use Rattle.dsql_tenure_journal.specs.Permits.{entry_of};
ghost use Rattle.dsql_tenure_journal.specs.Readers.{last_owner};
ghost use Rattle.dsql_tenure_asked.specs.Asked.{answer_like, entry_like};
ghost use Rattle.dsql_tenure.specs.Beginnings.{phase, can_grow, is_beginning_of};
ghost use Rattle.dsql_tenure.specs.MayBeAsked as may;
ghost use Rattle.dsql_tenure.specs.Sent.{may_send};

use crate::fault::Phase;
use crate::tables::Tables;
use dsql_driver::{DriverAnswer, fits};
use dsql_tenure_asked::{Asked, Cursor, Outcome, has_cursor, has_handle};
use dsql_tenure_journal::{Entry, Owner, Permit};

#[tactic(auto, unfolding(crate::specs::Tables::Stands))]
impl Tables {
    ghost use Rattle.dsql_tenure.specs.Tables.{past, Stands};

    /// Returns whether the journal, with this entry, is a beginning of a whole journal of the connection.
    pub fn accepts(&self, entry: &Entry) -> bool
        requires { Stands self.now }
        ensures { result ≡ is_beginning_of self.now.conn (entry.now ∷ past self.now) }
    {
        entry.conn == self.conn && self.may_follow(entry)
    }

    /// Returns whether the entry may come next.
    fn may_follow(&self, entry: &Entry) -> bool
        requires stands { Stands self.now }
        requires conn { entry.now.conn ≡ self.now.conn }
        ensures { result ≡ may_follow (past self.now) entry.now }
    {
        self.may_be_asked(&Asked::of(entry)) && self.fits_at_its_place(entry)
    }

    /// Returns whether the entry keeps all rules except that its answer fits.
    pub fn may_be_asked(&self, asked: &Asked<'_>) -> bool
        requires stands { Stands self.now }
        requires conn { asked.now.conn ≡ self.now.conn }
        ensures { result ≡ may.may_be_asked (past self.now) (entry_like asked.now) }
    {
        if !self.keeps_whole_journal(asked) {
            return false;
        }
        if !self.keeps_handles_and_cursors(asked) {
            return false;
        }
        self.keeps_tenure(asked) && self.keeps_transaction(asked)
    }

    /// Returns whether each fitting answer to the permit's call may come next.
    ///
    /// A failure stands for all answers that give nothing, and a Valid has no failure. A Begin makes its
    /// transaction only if it is answered Done.
    pub fn may_send(&self, permit: &Permit) -> bool
        requires { Stands self.now }
        ensures { result ≡ may_send self.now.conn (past self.now) permit.now }
    {
        if permit.conn != self.conn {
            return false;
        }
        if permit.call.is_valid() {
            return self.may_be_answered(permit, Outcome::Done);
        }
        if permit.call.is_begin() {
            return self.may_be_answered(permit, Outcome::Done)
                && self.may_be_asked(&Asked::of_refused_begin(permit));
        }
        self.may_be_answered(permit, Outcome::Failed)
    }

    /// Returns whether the call may come next with this outcome, if the answer fits at its place.
    fn may_be_answered(&self, permit: &Permit, outcome: Outcome) -> bool
        requires stands { Stands self.now }
        requires conn { permit.now.conn ≡ self.now.conn }
        ensures { result ≡ may.may_be_asked (past self.now) (entry_of permit.now (answer_like outcome)) }
    {
        self.may_be_asked(&Asked::of_permit(permit, outcome))
    }

    /// Returns where the journal stands.
    pub fn phase(&self) -> Phase
        requires { Stands self.now }
        ensures { result ≡ phase (past self.now) }
    {
        let Some(owner) = self.so_far.owner else {
            return Phase::Before;
        };
        if self.shut {
            Phase::After
        } else if self.can_grow(owner) {
            Phase::Inside
        } else {
            Phase::Between
        }
    }

    /// Returns whether the last tenure can have a further entry.
    fn can_grow(&self, owner: Owner) -> bool
        requires stands { Stands self.now }
        requires owner { last_owner (past self.now) ≡ Some owner }
        ensures { result ≡ can_grow (past self.now) }
    {
        if self.so_far.tested || self.so_far.fell {
            return false;
        }
        if !self.went_bad() {
            return !owner.is_house();
        }
        match owner {
            Owner::Tx(number) => self.is_open(number),
            Owner::Pin(_) => true,
            Owner::Call(_) | Owner::House => false,
        }
    }

    /// Returns whether the answer fits at its place.
    fn fits_at_its_place(&self, entry: &Entry) -> bool
        requires { Stands self.now }
        ensures { result ≡ handles.fits_at_its_place (past self.now) entry.now }
    {
        is_answer(entry) && self.gives_new(entry) && self.has_width_of_cursor(entry)
    }

    /// Returns whether a handle or cursor that the answer gives isn't live already.
    fn gives_new(&self, entry: &Entry) -> bool
        requires { Stands self.now }
        ensures { result ≡ may.gives_new (past self.now) entry.now }
    {
        self.gives_new_handle(entry) && self.gives_new_cursor(entry)
    }

    fn gives_new_handle(&self, entry: &Entry) -> bool
        requires { Stands self.now }
        ensures { result ≡ handles.gives_new_handle (past self.now) entry.now }
    {
        match entry.answer.given_handle() {
            Some(number) => !has_handle(&self.handles, number),
            None => true,
        }
    }

    fn gives_new_cursor(&self, entry: &Entry) -> bool
        requires { Stands self.now }
        ensures { result ≡ handles.gives_new_cursor (past self.now) entry.now }
    {
        match entry.answer.given_cursor() {
            Some(number) => !has_cursor(&self.cursors, number),
            None => true,
        }
    }

    /// Returns whether a Row has as many values as its cursor has columns.
    fn has_width_of_cursor(&self, entry: &Entry) -> bool
        requires { Stands self.now }
        ensures { result ≡ handles.has_width_of_cursor (past self.now) entry.now }
    {
        match entry.call.cursor() {
            Some(number) => is_as_wide(&self.cursors, number, &entry.answer),
            None => true,
        }
    }
}

/// Returns whether the table of shapes has this answer for its call, and the answer isn't want of memory.
fn is_answer(entry: &Entry) -> bool
    ensures { result ≡ may.is_answer entry.now }
{
    !matches!(entry.answer, DriverAnswer::Memory) && fits(&entry.call, &entry.answer)
}

/// Returns whether each live cursor of that number has as many columns as the answer has values, if it is a
/// Row.
fn is_as_wide(cursors: &[Cursor], number: u32, answer: &DriverAnswer) -> bool
    ensures { result ≡ list_all (λ c. not (c.number == number) || may.is_as_wide answer.now c) cursors.now }
{
    match answer {
        DriverAnswer::Row(values) => has_columns(cursors, number, values.as_slice().len()),
        _ => true,
    }
}

/// Returns whether each live cursor of that number has this many columns.
fn has_columns(cursors: &[Cursor], number: u32, columns: usize) -> bool
    ensures { result ≡ list_all (λ c. not (c.number == number) || (c.columns == columns)) cursors.now }
{
    cursors.iter().all(|cursor| cursor.number != number || cursor.columns == columns)
}

//! The shape of a tenure, by the tables. It says which entries may come next.
ghost use Rattle.std.specs.Prelude.{◌≡◌, ◌<◌, ◌≤◌, ◌&&◌, ◌||◌, ◌==◌, not, nat_lt, true};
ghost use Rattle.std.specs.List.{list_all};
ghost use Rattle.dsql_tenure_journal.specs.HandlesAndCursors.{keeps_handles_and_cursors as keeps_uses};
ghost use Rattle.dsql_driver.specs.Kinds as kind;
ghost use Rattle.dsql_tenure_journal.specs.Readers.{last_tenure, of_tenure};
ghost use Rattle.dsql_tenure_journal.specs.Tenure as rule;
ghost use Rattle.dsql_tenure_asked.specs.Asked.{entry_like};
ghost use Rattle.dsql_tenure.specs.TenureParts as part;

use crate::place::place;
use crate::so_far::{Prepared, SoFar};
use crate::tables::Tables;
use dsql_tenure_asked::{Asked, Handle, Outcome};
use dsql_tenure_journal::Owner;

#[tactic(auto, unfolding(crate::specs::Tables::Stands))]
impl Tables {
    ghost use Rattle.dsql_tenure.specs.Tables.{past, Stands};
    ghost use Rattle.dsql_tenure.specs.SoFar.{so_far};

    /// Returns what is kept of the last tenure, or of one that is to come.
    pub fn so_far_of(&self, number: u32) -> SoFar
        requires stands { Stands self.now }
        requires last { last_tenure (past self.now) ≤ number }
        ensures { result ≡ so_far (of_tenure number (past self.now)) }
    {
        if number == self.tenure {
            self.so_far
        } else {
            SoFar::nothing()
        }
    }

    /// Returns whether the entry keeps all rules of a tenure.
    pub fn keeps_tenure(&self, asked: &Asked<'_>) -> bool
        requires stands { Stands self.now }
        requires last { last_tenure (past self.now) ≤ asked.now.tenure }
        requires uses { keeps_uses (past self.now) (entry_like asked.now) ≡ true }
        ensures { result ≡ rule.keeps_tenure (past self.now) (entry_like asked.now) }
    {
        let so_far = self.so_far_of(asked.tenure);
        so_far.keeps_shape(asked) && self.keeps_rest(&so_far, asked)
    }

    /// Returns whether the tenure is whole at its Valid and the rest of its entries keep their rules.
    fn keeps_rest(&self, so_far: &SoFar, asked: &Asked<'_>) -> bool
        requires stands { Stands self.now }
        requires last { last_tenure (past self.now) ≤ asked.now.tenure }
        ensures { result ≡ part.keeps_rest so_far.now (past self.now) (entry_like asked.now) }
    {
        self.is_whole_at_valid(asked) && self.keeps_tests_and_body(so_far, asked)
    }

    fn is_whole_at_valid(&self, asked: &Asked<'_>) -> bool
        requires stands { Stands self.now }
        requires last { last_tenure (past self.now) ≤ asked.now.tenure }
        ensures { result ≡ rule.is_whole_at_valid (past self.now) (entry_like asked.now) }
    {
        !asked.call.is_valid() || self.is_whole_tenure(asked.tenure)
    }

    /// Returns whether tests stand in no transaction, a Reset answered Bad is the last, and the body keeps its
    /// rules.
    fn keeps_tests_and_body(&self, so_far: &SoFar, asked: &Asked<'_>) -> bool
        requires { Stands self.now }
        ensures { result ≡ part.keeps_tests_and_body so_far.now (past self.now) (entry_like asked.now) }
    {
        if so_far.fell {
            return false;
        }
        if asked.call.is_reset() || asked.call.is_valid() {
            asked.tx == 0
        } else {
            self.keeps_body(so_far, asked)
        }
    }

    fn keeps_body(&self, so_far: &SoFar, asked: &Asked<'_>) -> bool
        requires { Stands self.now }
        ensures { result ≡ part.keeps_body so_far.now asked.now.owner (past self.now) (entry_like asked.now) }
    {
        match asked.owner {
            Owner::Call(_) => self.keeps_call(so_far, asked),
            Owner::Tx(number) => so_far.keeps_tx(number, asked),
            Owner::Pin(_) => is_pin_body(asked),
            Owner::House => true,
        }
    }

    fn keeps_call(&self, so_far: &SoFar, asked: &Asked<'_>) -> bool
        requires { Stands self.now }
        ensures { result ≡ part.keeps_call so_far.now (past self.now) (entry_like asked.now) }
    {
        so_far.goes_in_order(asked)
            && self.closes_own(asked)
            && so_far.runs_well(asked)
            && self.closes_rows_first(asked)
            && asked.tx == 0
    }

    /// Returns whether the handle that the entry closes was prepared in this tenure.
    fn closes_own(&self, asked: &Asked<'_>) -> bool
        requires { Stands self.now }
        ensures { result ≡ part.closes_own (past self.now) (entry_like asked.now) }
    {
        if !asked.call.is_close_stmt() {
            return true;
        }
        match asked.call.handle() {
            Some(number) => is_of_tenure(&self.handles, number, asked.tenure),
            None => true,
        }
    }

    fn closes_rows_first(&self, asked: &Asked<'_>) -> bool
        requires { Stands self.now }
        ensures { result ≡ rule.closes_rows_first (past self.now) (entry_like asked.now) }
    {
        !asked.call.is_close_stmt()
            || matches!(asked.outcome, Outcome::Bad)
            || self.has_closed_cursors(asked.tenure)
    }
}

impl SoFar {
    /// Returns whether the owner is the tenure's own, if the tenure has one.
    fn has_owner(&self, owner: Owner) -> bool
        ensures { result ≡ part.has_owner self.now.owner owner }
    {
        match self.owner {
            Some(own) => own.is_same(owner),
            None => true,
        }
    }

    /// Returns whether the house sends a single entry, for no call and in no transaction.
    fn keeps_house(&self, asked: &Asked<'_>) -> bool
        ensures { result ≡ part.keeps_house self.now (entry_like asked.now) }
    {
        !asked.owner.is_house()
            || self.owner.is_none() && is_house_call(asked) && asked.call_no == 0 && asked.tx == 0
    }

    /// Returns whether the entry keeps the rules for the owner, the house, a Reset at the head, and nothing
    /// after a Valid.
    fn keeps_shape(&self, asked: &Asked<'_>) -> bool
        ensures { result ≡ part.keeps_shape self.now (entry_like asked.now) }
    {
        self.has_owner(asked.owner)
            && self.keeps_house(asked)
            && (!asked.call.is_reset() || self.owner.is_none())
            && !self.tested
    }

    /// Returns whether a call on the database pings, or works in its order.
    fn goes_in_order(&self, asked: &Asked<'_>) -> bool
        ensures { result ≡ part.goes_in_order self.now (entry_like asked.now) }
    {
        if asked.call.is_ping() {
            return !self.worked;
        }
        let place = place(asked.call);
        0 < place && !self.pinged && (self.place < place || asked.call.is_next() && self.place == 4)
    }

    /// Returns whether the entry prepares or runs a handle only after a skip, runs its own handle, and sends
    /// nothing after a Bad answer.
    fn runs_well(&self, asked: &Asked<'_>) -> bool
        ensures { result ≡ part.runs_well self.now (entry_like asked.now) }
    {
        self.follows_skip(asked) && self.runs_own(asked) && !self.bad
    }

    fn follows_skip(&self, asked: &Asked<'_>) -> bool
        ensures { result ≡ part.follows_skip self.now (entry_like asked.now) }
    {
        !self.ran || !(asked.call.is_prepare() || asked.call.runs_handle())
    }

    fn runs_own(&self, asked: &Asked<'_>) -> bool
        ensures { result ≡ part.runs_own self.now (entry_like asked.now) }
    {
        match (asked.call.runs_handle(), asked.call.handle()) {
            (true, Some(number)) => self.prepared.allows(number),
            _ => true,
        }
    }

    /// Returns whether the tenure of transaction n has one refused Begin and nothing else, or only entries of
    /// transaction n.
    fn keeps_tx(&self, number: u32, asked: &Asked<'_>) -> bool
        ensures { result ≡ part.keeps_tx self.now number (entry_like asked.now) }
    {
        !self.worked && asked.is_refused_begin()
            || number != 0 && asked.tx == number && !self.refused
    }
}

impl Prepared {
    /// Returns whether the handle may be run.
    fn allows(self, number: u32) -> bool
        ensures { result ≡ part.allows self number }
    {
        match self {
            Prepared::Nothing => true,
            Prepared::Handle(handle) => handle == number,
            Prepared::Otherwise => false,
        }
    }
}

/// Returns whether each live handle of that number is of that tenure.
fn is_of_tenure(handles: &[Handle], number: u32, tenure: u32) -> bool
    ensures { result ≡ list_all (λ h. not (h.number == number) || (h.tenure == tenure)) handles.now }
{
    handles.iter().all(|handle| handle.number != number || handle.tenure == tenure)
}

/// Returns whether the call is a Connect, CloseStmt or Shut.
fn is_house_call(asked: &Asked<'_>) -> bool
    ensures { result ≡ (kind.is_connect asked.now.call.now || kind.is_close_stmt asked.now.call.now
        || kind.is_shut asked.now.call.now) }
{
    asked.call.is_connect() || asked.call.is_close_stmt() || asked.call.is_shut()
}

/// Returns whether the entry may stand on a pinned connection.
///
/// Outside transactions there are only pings, work and refused Begins.
fn is_pin_body(asked: &Asked<'_>) -> bool
    ensures { result ≡ rule.is_pin_body (entry_like asked.now) }
{
    asked.tx != 0 || asked.call.is_ping() || asked.call.is_work() || asked.is_refused_begin()
}

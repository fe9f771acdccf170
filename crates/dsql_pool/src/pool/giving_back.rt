//! Connections that come back, and those that the house borrows.
ghost use Rattle.std.specs.Prelude.{◌≡◌, ◌+◌, ◌<◌, ◌≤◌, ◌∷◌, [], ◌++◌, ℕ, length, true, OnOk, OnErr, IfOk};

use crate::moves::{CloseCause, Fate, Outcome};
use crate::pool::Pool;
use dsql_tenure_journal::Owner;
use dsql_time::expired;
use dsql_value::Memory;

impl Pool {
    ghost use Rattle.dsql_pool.specs.Places.{is_idle, is_lent};
    ghost use Rattle.dsql_pool.specs.Pooled.{place_at, next_tenure, most_drawn};
    ghost use Rattle.dsql_pool.specs.Moved.{made, moved};
    ghost use Rattle.dsql_pool.specs.Decisions.{when_kept, when_good, when_given_back, lends_to_oldest};
    ghost use Rattle.dsql_pool.specs.Calls.{moves_given_back, moves_lent_house};
    ghost use Rattle.dsql_pool.specs.declared.moves.Move.{Move};
    ghost use Rattle.dsql_pool.specs.declared.moves.Move.TheVariants.{Lend};

    // Returns what happens to a connection that nothing closes.
    fn when_kept(&self) -> Outcome
        ensures { result ≡ when_kept self.now.pooled }
    {
        if self.waiting.held() > 0 {
            Outcome::Serves
        } else if (self.idle.len() as u64) < self.limits.max_idle as u64 {
            Outcome::Rests
        } else {
            Outcome::Closes(CloseCause::IdleFull)
        }
    }

    // Returns what happens to a connection that nothing is said against.
    pub(super) fn when_good(&self, expired: bool) -> Outcome
        ensures { result ≡ when_good expired self.now.pooled }
    {
        let most = self.limits.max_open as u64;
        if expired {
            Outcome::Closes(CloseCause::Lifetime)
        } else if self.closed {
            Outcome::Closes(CloseCause::DbClosed)
        } else if most > 0 && self.conns.count() > most {
            Outcome::Closes(CloseCause::OverLimit)
        } else {
            self.when_kept()
        }
    }

    fn when_given_back(&self, conn: u32, fate: Fate) -> Outcome
        ensures { result ≡ when_given_back fate conn self.now.pooled }
    {
        match fate {
            Fate::Bad => Outcome::Closes(CloseCause::Bad),
            Fate::Invalid => Outcome::Closes(CloseCause::Invalid),
            Fate::Discarded => Outcome::Closes(CloseCause::Discarded),
            Fate::Good => match self.conns.at(conn) {
                Some(row) => {
                    self.when_good(expired(row.created, self.limits.lifetime, self.moment))
                }
                None => self.when_good(false),
            },
        }
    }

    // Lends a connection to the oldest request, if one waits.
    pub(super) fn serve_oldest(&mut self, conn: u32)
        requires space { length self.old.moves < self.old.capacity }
        requires drawn { self.old.pooled.drawn ≤ most_drawn }
        ensures pooled { self.new.pooled ≡ made
            (lends_to_oldest conn (next_tenure self.old.pooled conn) self.old.pooled.waiting) self.old.pooled }
        ensures moves { self.new.moves ≡ self.old.moves
            ++ lends_to_oldest conn (next_tenure self.old.pooled conn) self.old.pooled.waiting }
        ensures spare { self.old.spare ≤ self.new.spare }
    {
        let oldest = match self.waiting.oldest() {
            Some(request) => Some((request.owner, request.call)),
            None => None,
        };
        if let Some((owner, call)) = oldest {
            self.make_lend(conn, owner, call);
        }
    }

    /// Takes a lent connection back.
    ///
    /// The connection is closed, goes to the request that has waited longest, or becomes idle. `fate` is what
    /// was said against it. This follows Go's `DB.putConn`.
    pub fn give_back(&mut self, conn: u32, fate: Fate) -> Result<(), Memory>
        requires lent { is_lent (place_at self.old.pooled conn) ≡ true }
        requires drawn { self.old.pooled.drawn ≤ most_drawn }
        ensures moves { OnOk result (self.new.moves ≡ moves_given_back fate conn self.old.pooled) }
        ensures ok { OnOk result (self.new.pooled ≡ made (moves_given_back fate conn self.old.pooled) self.old.pooled) }
        ensures full { OnErr result (self.old.spare ≡ 0) }
        ensures err { OnErr result (self.new.pooled ≡ self.old.pooled) }
        ensures spare { self.old.spare ≤ self.new.spare + 1 }
    {
        self.make_ready()?;
        match self.when_given_back(conn, fate) {
            Outcome::Closes(cause) => self.make_closing(conn, cause),
            Outcome::Serves => {
                self.make_back(conn);
                self.serve_oldest(conn);
            }
            Outcome::Rests => self.make_back(conn),
        }
        Ok(())
    }

    /// Lends an idle connection to the house, for driver calls that no client asked for. Returns the tenure.
    pub fn lend_house(&mut self, conn: u32) -> Result<u32, Memory>
        requires idle { is_idle (place_at self.old.pooled conn) ≡ true }
        requires drawn { self.old.pooled.drawn ≤ most_drawn }
        ensures tenure { IfOk result (λ tenure. tenure ≡ next_tenure self.old.pooled conn) }
        ensures moves { OnOk result (self.new.moves ≡ moves_lent_house conn self.old.pooled) }
        ensures ok { OnOk result (self.new.pooled ≡ made (moves_lent_house conn self.old.pooled) self.old.pooled) }
        ensures full { OnErr result (self.old.spare ≡ 0) }
        ensures err { OnErr result (self.new.pooled ≡ self.old.pooled) }
        ensures spare { self.old.spare ≤ self.new.spare }
    {
        self.make_ready()?;
        let tenure = self.next_tenure(conn);
        self.make_lend(conn, Owner::House, 0);
        Ok(tenure)
    }
}

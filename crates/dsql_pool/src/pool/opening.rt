//! Openings: those that end, and those that begin for requests that wait.
ghost use Rattle.std.specs.Prelude.{◌≡◌, ◌+◌, ◌<◌, ◌≤◌, ◌∷◌, [], ◌++◌, length, true, OnOk, OnErr};

use crate::conn::Place;
use crate::moves::Outcome;
use crate::pool::{MOST_OPEN, Pool};
use dsql_tenure_journal::Owner;
use dsql_value::Memory;

impl Pool {
    ghost use Rattle.dsql_pool.specs.Places.{is_opening, is_closing};
    ghost use Rattle.dsql_tenure_journal.specs.Kinds.{number_of};
    ghost use Rattle.dsql_pool.specs.Pooled.{most_allowed, place_at, next_tenure, most_open, most_drawn};
    ghost use Rattle.dsql_pool.specs.Moved.{made, moved};
    ghost use Rattle.dsql_pool.specs.Decisions.{when_unwanted, moves_unwanted, falls_to, due_openings, openings_for_waiting};
    ghost use Rattle.dsql_pool.specs.Calls.{moves_opened, moves_failed, moves_gone};
    ghost use Rattle.dsql_pool.specs.declared.moves.Move.{Move};
    ghost use Rattle.dsql_pool.specs.declared.moves.Move.TheVariants.{Lend};

    // Places a connection that was opened and isn't wanted: it is closed, goes to the oldest request, or
    // becomes idle.
    fn place_unwanted(&mut self, conn: u32)
        requires room { 0 < self.old.spare }
        requires space { length self.old.moves < self.old.capacity }
        requires drawn { self.old.pooled.drawn ≤ most_drawn }
        ensures pooled { self.new.pooled
            ≡ made (moves_unwanted conn self.old.pooled (when_unwanted self.old.pooled)) self.old.pooled }
        ensures moves { self.new.moves ≡ self.old.moves
            ++ moves_unwanted conn self.old.pooled (when_unwanted self.old.pooled) }
        ensures spare { self.old.spare ≤ self.new.spare + 1 }
    {
        match self.when_good(false) {
            Outcome::Closes(cause) => self.make_closing(conn, cause),
            Outcome::Serves => self.serve_oldest(conn),
            Outcome::Rests => self.make_back(conn),
        }
    }

    /// Places a connection that was opened.
    ///
    /// It goes to the request for which it began to be opened, if that still wants it. Otherwise it is closed,
    /// goes to the oldest request, or becomes idle.
    pub fn opened(&mut self, conn: u32) -> Result<(), Memory>
        requires opening { is_opening (place_at self.old.pooled conn) ≡ true }
        requires drawn { self.old.pooled.drawn ≤ most_drawn }
        ensures moves { OnOk result (self.new.moves ≡ moves_opened conn self.old.pooled) }
        ensures ok { OnOk result (self.new.pooled ≡ made (moves_opened conn self.old.pooled) self.old.pooled) }
        ensures full { OnErr result (self.old.spare ≡ 0) }
        ensures err { OnErr result (self.new.pooled ≡ self.old.pooled) }
        ensures spare { self.old.spare ≤ self.new.spare + 1 }
    {
        self.make_ready()?;
        match self.place(conn) {
            Some(Place::Opening(Some(owner))) => self.make_lend(conn, owner, owner.number()),
            Some(Place::Opening(None)) => self.place_unwanted(conn),
            _ => {}
        }
        Ok(())
    }

    // Returns the call to which a refused opening falls, or 0 for none.
    fn falls_to(&self, conn: u32) -> u32
        ensures { result ≡ falls_to (place_at self.now.pooled conn) self.now.pooled }
    {
        match self.place(conn) {
            Some(Place::Opening(Some(owner))) => owner.number(),
            Some(Place::Opening(None)) => match self.waiting.oldest() {
                Some(request) => request.call,
                None => 0,
            },
            _ => 0,
        }
    }

    // Returns how many connections may be open.
    fn most_allowed(&self) -> u64
        ensures { result ≡ most_allowed self.now.pooled }
    {
        let most = self.limits.max_open;
        if 1 <= most && most <= MOST_OPEN {
            most as u64
        } else {
            MOST_OPEN as u64
        }
    }

    // Returns how many openings are due for requests that wait.
    fn due_openings(&self) -> u64
        ensures { result ≡ due_openings self.now.pooled }
    {
        let waiting = self.waiting.held();
        if waiting == 0 {
            return 0;
        }
        let wanted = waiting.saturating_sub(self.conns.free_openings());
        wanted.min(self.most_allowed().saturating_sub(self.conns.count()))
    }

    // Begins the openings that are due.
    pub(super) fn begin_due(&mut self)
        requires room { 0 < self.old.spare }
        requires space { length self.old.moves + most_open ≤ self.old.capacity }
        requires drawn { self.old.pooled.drawn ≤ most_drawn }
        ensures pooled { self.new.pooled ≡ made (openings_for_waiting self.old.pooled) self.old.pooled }
        ensures moves { self.new.moves ≡ self.old.moves ++ openings_for_waiting self.old.pooled }
        ensures spare { self.old.spare ≤ self.new.spare }
    {
        let due = self.due_openings();
        for _k in 0..due {
            self.make_opening(None, 0);
        }
    }

    /// Removes a connection that couldn't be opened.
    ///
    /// The fault falls to the call for which the connection began to be opened, if that still wants it.
    /// Otherwise it falls to the oldest request, if one waits, and then to nobody. Then the openings that are
    /// due begin.
    pub fn open_failed(&mut self, conn: u32) -> Result<(), Memory>
        requires opening { is_opening (place_at self.old.pooled conn) ≡ true }
        requires drawn { self.old.pooled.drawn ≤ most_drawn }
        ensures moves { OnOk result (self.new.moves ≡ moves_failed conn self.old.pooled) }
        ensures ok { OnOk result (self.new.pooled ≡ made (moves_failed conn self.old.pooled) self.old.pooled) }
        ensures full { OnErr result (self.old.spare ≡ 0) }
        ensures err { OnErr result (self.new.pooled ≡ self.old.pooled) }
        ensures spare { self.old.spare ≤ self.new.spare }
    {
        self.make_ready()?;
        let call = self.falls_to(conn);
        self.make_fell(conn, call);
        self.begin_due();
        Ok(())
    }

    /// Removes a connection that was shut. Then the openings that are due begin. This follows Go's
    /// `DB.maybeOpenNewConnections`.
    pub fn gone(&mut self, conn: u32) -> Result<(), Memory>
        requires closing { is_closing (place_at self.old.pooled conn) ≡ true }
        requires drawn { self.old.pooled.drawn ≤ most_drawn }
        ensures moves { OnOk result (self.new.moves ≡ moves_gone conn self.old.pooled) }
        ensures ok { OnOk result (self.new.pooled ≡ made (moves_gone conn self.old.pooled) self.old.pooled) }
        ensures full { OnErr result (self.old.spare ≡ 0) }
        ensures err { OnErr result (self.new.pooled ≡ self.old.pooled) }
        ensures spare { self.old.spare ≤ self.new.spare }
    {
        self.make_ready()?;
        self.make_gone(conn);
        self.begin_due();
        Ok(())
    }
}

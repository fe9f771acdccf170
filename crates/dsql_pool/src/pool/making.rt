//! The moves: each is made and noted.
ghost use Rattle.std.specs.Prelude.{◌≡◌, ◌+◌, ◌<◌, ◌≤◌, ◌∷◌, [], ◌++◌, length, None};

use crate::lists::remove_number;
use crate::moves::{CloseCause, Move};
use crate::pool::Pool;
use dsql_tenure_journal::Owner;

impl Pool {
    ghost use Rattle.dsql_pool.specs.Pooled.{open_count, next_number, next_tenure, most_open, most_drawn, most_drawn_within_a_call};
    ghost use Rattle.dsql_pool.specs.Moved.{moved, left, begun, lent_out};
    ghost use Rattle.dsql_pool.specs.declared.moves.Move.{Move};
    ghost use Rattle.dsql_pool.specs.declared.moves.Move.TheVariants.{OpenStart, Lend, Back, CloseStart, Gone, Fell};

    // Notes a move. There must be memory for it.
    pub(super) fn note(&mut self, done: Move)
        requires { length self.old.moves < self.old.capacity }
        ensures moves { self.new.moves ≡ self.old.moves ++ done ∷ [] }
        ensures len { length self.new.moves ≡ length self.old.moves + 1 }
        ensures pooled { self.new.pooled ≡ self.old.pooled }
        ensures spare { self.old.spare ≤ self.new.spare }
        ensures capacity { self.old.capacity ≤ self.new.capacity }
    {
        self.moves.push_reserved(done);
    }

    /// Returns the number of the next tenure of a connection.
    pub fn next_tenure(&self, conn: u32) -> u32
        requires { self.now.pooled.drawn ≤ most_drawn }
        ensures { result ≡ next_tenure self.now.pooled conn }
    {
        match self.conns.at(conn) {
            Some(row) => row.lends + 2,
            None => 2,
        }
    }

    // Lends a connection, whoever waits.
    fn lend(&mut self, conn: u32, tenure: u32, owner: Owner)
        requires { self.old.pooled.drawn < most_drawn_within_a_call }
        ensures pooled { self.new.pooled ≡ lent_out conn tenure owner self.old.pooled }
        ensures moves { self.new.moves ≡ self.old.moves }
        ensures spare { self.old.spare ≤ self.new.spare }
        ensures capacity { self.new.capacity ≡ self.old.capacity }
    {
        self.conns.lend(conn, tenure, owner, self.moment);
        remove_number(&mut self.idle, conn);
    }

    // Ends the wait of a call, if it waits.
    pub(super) fn leave(&mut self, call: u32)
        ensures pooled { self.new.pooled ≡ left call self.old.pooled }
        ensures moves { self.new.moves ≡ self.old.moves }
        ensures spare { self.old.spare ≤ self.new.spare }
        ensures capacity { self.new.capacity ≡ self.old.capacity }
    {
        let request = self.waiting.leave(call);
        self.counts = self.counts.with_wait_over(self.moment, &request);
    }

    // Lends a connection to an owner for a call, and ends the wait of the call.
    pub(super) fn make_lend(&mut self, conn: u32, owner: Owner, call: u32)
        requires space { length self.old.moves < self.old.capacity }
        requires drawn { self.old.pooled.drawn ≤ most_drawn }
        ensures pooled { self.new.pooled
            ≡ moved (Lend conn (next_tenure self.old.pooled conn) owner call) self.old.pooled }
        ensures moves { self.new.moves ≡ self.old.moves
            ++ Lend conn (next_tenure self.old.pooled conn) owner call ∷ [] }
        ensures spare { self.old.spare ≤ self.new.spare }
    {
        let tenure = self.next_tenure(conn);
        self.note(Move::Lend {
            conn,
            tenure,
            owner,
            call,
        });
        self.lend(conn, tenure, owner);
        self.leave(call);
    }

    fn rest(&mut self, conn: u32)
        requires { 0 < self.old.spare }
        ensures pooled { self.new.pooled ≡ moved (Back conn) self.old.pooled }
        ensures moves { self.new.moves ≡ self.old.moves }
        ensures spare { self.old.spare ≤ self.new.spare + 1 }
        ensures capacity { self.new.capacity ≡ self.old.capacity }
    {
        self.idle.push_reserved(conn);
        self.conns.back(conn, self.moment);
    }

    // Makes a connection idle that was lent or being opened.
    pub(super) fn make_back(&mut self, conn: u32)
        requires room { 0 < self.old.spare }
        requires space { length self.old.moves < self.old.capacity }
        ensures pooled { self.new.pooled ≡ moved (Back conn) self.old.pooled }
        ensures moves { self.new.moves ≡ self.old.moves ++ Back conn ∷ [] }
        ensures len { length self.new.moves ≡ length self.old.moves + 1 }
        ensures spare { self.old.spare ≤ self.new.spare + 1 }
        ensures capacity { self.old.capacity ≤ self.new.capacity }
    {
        self.note(Move::Back { conn });
        self.rest(conn);
    }

    // Begins to close a connection.
    pub(super) fn start_closing(&mut self, conn: u32, cause: CloseCause)
        ensures pooled { self.new.pooled ≡ moved (CloseStart conn cause) self.old.pooled }
        ensures moves { self.new.moves ≡ self.old.moves }
        ensures spare { self.old.spare ≤ self.new.spare }
        ensures capacity { self.new.capacity ≡ self.old.capacity }
    {
        self.conns.close(conn);
        remove_number(&mut self.idle, conn);
        self.counts = self.counts.with_closed(cause);
    }

    pub(super) fn make_closing(&mut self, conn: u32, cause: CloseCause)
        requires { length self.old.moves < self.old.capacity }
        ensures pooled { self.new.pooled ≡ moved (CloseStart conn cause) self.old.pooled }
        ensures moves { self.new.moves ≡ self.old.moves ++ CloseStart conn cause ∷ [] }
        ensures spare { self.old.spare ≤ self.new.spare }
    {
        self.note(Move::CloseStart { conn, cause });
        self.start_closing(conn, cause);
    }

    fn remove(&mut self, conn: u32)
        ensures pooled { self.new.pooled ≡ moved (Gone conn) self.old.pooled }
        ensures moves { self.new.moves ≡ self.old.moves }
        ensures spare { self.old.spare ≤ self.new.spare }
        ensures capacity { self.new.capacity ≡ self.old.capacity }
    {
        self.conns.remove(conn);
    }

    // Removes a connection that was shut.
    pub(super) fn make_gone(&mut self, conn: u32)
        requires { length self.old.moves < self.old.capacity }
        ensures pooled { self.new.pooled ≡ moved (Gone conn) self.old.pooled }
        ensures moves { self.new.moves ≡ self.old.moves ++ Gone conn ∷ [] }
        ensures len { length self.new.moves ≡ length self.old.moves + 1 }
        ensures spare { self.old.spare ≤ self.new.spare }
        ensures capacity { self.old.capacity ≤ self.new.capacity }
    {
        self.note(Move::Gone { conn });
        self.remove(conn);
    }

    // Removes a connection that couldn't be opened. The fault falls to a call, whose wait ends.
    pub(super) fn make_fell(&mut self, conn: u32, call: u32)
        requires { length self.old.moves < self.old.capacity }
        ensures pooled { self.new.pooled ≡ moved (Fell conn call) self.old.pooled }
        ensures moves { self.new.moves ≡ self.old.moves ++ Fell conn call ∷ [] }
        ensures len { length self.new.moves ≡ length self.old.moves + 1 }
        ensures spare { self.old.spare ≤ self.new.spare }
        ensures capacity { self.old.capacity ≤ self.new.capacity }
    {
        self.note(Move::Fell { conn, call });
        self.remove(conn);
        self.leave(call);
    }

    // Begins an opening, for the request of an owner or for no request of its own.
    fn begin(&mut self, wanted: Option<Owner>)
        requires room { 0 < self.old.spare }
        requires few { open_count self.old.pooled < most_open }
        requires drawn { self.old.pooled.drawn < most_drawn_within_a_call }
        ensures pooled { self.new.pooled ≡ begun wanted self.old.pooled }
        ensures moves { self.new.moves ≡ self.old.moves }
        ensures spare { self.old.spare ≤ self.new.spare }
        ensures capacity { self.new.capacity ≡ self.old.capacity }
    {
        self.conns.begin(wanted);
    }

    // Begins an opening for a call if `call` is the number of an owner, and otherwise for no request of its
    // own.
    pub(super) fn make_opening(&mut self, wanted: Option<Owner>, call: u32)
        requires room { 0 < self.old.spare }
        requires few { open_count self.old.pooled < most_open }
        requires space { length self.old.moves < self.old.capacity }
        requires drawn { self.old.pooled.drawn < most_drawn_within_a_call }
        ensures pooled { self.new.pooled ≡ begun wanted self.old.pooled }
        ensures moves { self.new.moves ≡ self.old.moves ++ OpenStart (next_number self.old.pooled) call ∷ [] }
        ensures len { length self.new.moves ≡ length self.old.moves + 1 }
        ensures spare { self.old.spare ≤ self.new.spare }
        ensures capacity { self.old.capacity ≤ self.new.capacity }
    {
        let conn = self.conns.next_number();
        self.note(Move::OpenStart { conn, call });
        self.begin(wanted);
    }
}

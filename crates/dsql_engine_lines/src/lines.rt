//! What was heard since connections were lent.
ghost use Rattle.std.specs.Prelude.{◌≡◌, ◌+◌, ◌≤◌, ◌<◌, ◌∷◌, ◌++◌, [], length, slice_set, slice_index_or, vec_len, vec_capacity, IfOk, OnOk};
ghost use Rattle.dsql_engine_exchanged.specs.Heard.{nothing_heard};
ghost use Rattle.dsql_engine_lines.specs.Inside.{lines_heard};
ghost use Rattle.dsql_engine_lines.specs.Lines.{in_transactions};
ghost use Rattle.dsql_engine_lines.specs.There.{nothing_there, then_there, lent_by, lent_by_all};
ghost use Rattle.dsql_engine_effects.specs.Ended.{works_of};

use crate::inside::{add_listener, hear_all, keep_open};
use crate::there::{self, HeardThere};
use dsql_engine_calls::CallRow;
use dsql_engine_exchanged::HeardLine;
use dsql_laws_calls::{Entry, Memory, Move};
use std::alloc::Global;

/// What was heard since connections were lent, as far as the next driver call depends on it.
#[derive(Drop)]
pub struct Lines {
    /// What was heard on each connection, by its number.
    pub there: Vec<HeardThere>,
    /// What was heard in the line of each call in a transaction, by the call's number.
    pub calls: Vec<HeardLine>,
    /// The calls in transactions that have a cursor or a handle open.
    pub open: Vec<u32>,
}

impl Lines {
    /// Returns the lines of a run in which nothing was heard yet. There is no connection 0 and no call 0.
    pub fn new(alloc: Global) -> Result<Lines, Memory>
        ensures there { IfOk result (λ it. it.there.items ≡ nothing_there ∷ []) }
        ensures calls { IfOk result (λ it. it.calls.items ≡ nothing_heard ∷ []) }
        ensures none_open { IfOk result (λ it. it.open.items ≡ []) }
    {
        let mut there = Vec::new(alloc);
        there.push(HeardThere::new())?;
        let mut calls = Vec::new(alloc);
        calls.push(HeardLine::new())?;
        let open = Vec::new(alloc);
        Ok(Lines { there, calls, open })
    }

    /// Takes the memory for this many events.
    pub fn reserve(&mut self, events: usize) -> Result<(), Memory>
        ensures there { self.new.there.items ≡ self.old.there.items }
        ensures calls { self.new.calls.items ≡ self.old.calls.items }
        ensures still_open { self.new.open.items ≡ self.old.open.items }
        ensures there_room { OnOk result (vec_len self.new.there + events ≤ vec_capacity self.new.there) }
        ensures calls_room { OnOk result (vec_len self.new.calls + events ≤ vec_capacity self.new.calls) }
        ensures open_room { OnOk result (vec_len self.new.open + events ≤ vec_capacity self.new.open) }

        ensures there_len { vec_len self.new.there ≡ vec_len self.old.there }
        ensures calls_len { vec_len self.new.calls ≡ vec_len self.old.calls }
        ensures open_len { vec_len self.new.open ≡ vec_len self.old.open }
        ensures there_capacity { vec_capacity self.old.there ≤ vec_capacity self.new.there }
        ensures calls_capacity { vec_capacity self.old.calls ≤ vec_capacity self.new.calls }
        ensures open_capacity { vec_capacity self.old.open ≤ vec_capacity self.new.open }
    {
        self.there.reserve(events)?;
        self.calls.reserve(events)?;
        self.open.reserve(events)?;
        Ok(())
    }

    /// Records that nothing was heard yet on a connection that begins to be opened or is lent.
    pub fn note_lent(&mut self, it: Move)
        requires { vec_len self.old.there < vec_capacity self.old.there }
        ensures there { self.new.there.items ≡ lent_by it self.old.there.items }
        ensures len { vec_len self.new.there ≤ vec_len self.old.there + 1 }
        ensures capacity { vec_capacity self.new.there ≡ vec_capacity self.old.there }
        ensures calls { self.new.calls ≡ self.old.calls }
        ensures still_open { self.new.open ≡ self.old.open }
    {
        there::note_lent(&mut self.there, it);
    }

    /// Records, for moves one after another, that nothing was heard yet on a connection that begins to be
    /// opened or is lent.
    pub fn note_all_lent(&mut self, moves: &[Move])
        requires { vec_len self.old.there + length moves.now ≤ vec_capacity self.old.there }
        ensures there { self.new.there.items ≡ lent_by_all moves.now self.old.there.items }
        ensures len { vec_len self.new.there ≤ vec_len self.old.there + length moves.now }
        ensures capacity { vec_capacity self.new.there ≡ vec_capacity self.old.there }
        ensures calls { self.new.calls ≡ self.old.calls }
        ensures still_open { self.new.open ≡ self.old.open }
    {
        there::note_all_lent(&mut self.there, moves);
    }

    /// Records that nothing was heard yet in the line of a call that enters.
    pub fn note_call(&mut self)
        requires { vec_len self.old.calls < vec_capacity self.old.calls }
        ensures calls { self.new.calls.items ≡ self.old.calls.items ++ nothing_heard ∷ [] }
        ensures len { vec_len self.new.calls ≡ vec_len self.old.calls + 1 }
        ensures capacity { vec_capacity self.new.calls ≡ vec_capacity self.old.calls }
        ensures there { self.new.there ≡ self.old.there }
        ensures still_open { self.new.open ≡ self.old.open }
    {
        self.calls.push_reserved(HeardLine::new());
    }

    /// Records an answer that was heard on a connection. In a transaction, the calls with an open cursor or
    /// handle listen, and so does the call that sent the driver call.
    pub fn note_entry(&mut self, rows: &Vec<CallRow>, entry: &Entry)
        requires { vec_len self.old.open < vec_capacity self.old.open }
        ensures there { self.new.there.items
            ≡ slice_set self.old.there.items entry.now.conn
            (then_there entry.now (slice_index_or self.old.there.items entry.now.conn nothing_there)) }
        ensures inside { in_transactions self.new
            ≡ lines_heard (works_of rows.now.items) entry.now (in_transactions self.old) }

        ensures there_len { vec_len self.new.there ≡ vec_len self.old.there }
        ensures there_capacity { vec_capacity self.new.there ≡ vec_capacity self.old.there }
        ensures calls_len { vec_len self.new.calls ≡ vec_len self.old.calls }
        ensures calls_capacity { vec_capacity self.new.calls ≡ vec_capacity self.old.calls }
        ensures open_len { vec_len self.new.open ≤ vec_len self.old.open + 1 }
        ensures open_capacity { vec_capacity self.new.open ≡ vec_capacity self.old.open }
    {
        there::note_answer(&mut self.there, entry);
        add_listener(&mut self.open, entry.call_no);
        hear_all(&mut self.calls, &self.open, rows, entry);
        keep_open(&mut self.open, &self.calls);
    }
}

//! The changes that each event makes to the history and to the tables. The event methods change the pool.
ghost use Rattle.std.specs.Prelude.{◌≡◌, ◌≤◌, [], length, true, false, is_some, slice_set, vec_len, vec_capacity};
ghost use Rattle.dsql_engine_desk.specs.Adding.{MayAdd, Adds, MayAddMoves, AddsMoves, is_beside, is_refusal, opens_or_shuts};
ghost use Rattle.dsql_engine_desk.specs.Appending.{DecidesNow};
ghost use Rattle.dsql_engine_desk.specs.Desk.{past};
ghost use Rattle.dsql_engine_desk.specs.Step.{step_after_move};
ghost use Rattle.dsql_engine_effects.specs.Heard.{HearsBegin, HearsRows};
ghost use Rattle.dsql_engine_calls.specs.Settling.{reply_or, settled_in};
ghost use Rattle.dsql_engine_calls.specs.Calls.{row_at};
ghost use Rattle.dsql_engine_effects.specs.Starts.{Starts};
ghost use Rattle.dsql_laws_calls.specs.history.Readers.HandedOut.{handed_out};
ghost use Rattle.dsql_laws_calls.specs.history.Readers.Owed.{owed};
ghost use Rattle.dsql_laws_calls.specs.history.Readers.Transactions.{transactions};
ghost use Rattle.dsql_laws_calls.specs.history.Readers.Works.{work, works};
ghost use Rattle.dsql_engine_calls.specs.Tried.{most_counted};

use crate::desk::Desk;
use dsql_engine_calls::settling::{forget, take_reply};
use dsql_engine_calls::tries::{note_tries, note_try};
use dsql_engine_calls::writes::{put, take_out};
use dsql_engine_calls::{CallRow, CallStart, Tried};
use dsql_engine_effects::ending::{end_run, end_tx};
use dsql_engine_effects::labels::note_label;
use dsql_engine_effects::rows::close_rows;
use dsql_engine_effects::tell_answer;
use dsql_laws_calls::{CallRecord, DriverAnswer, Entry, Event, Move, Op, Reply, TxEnd};

#[tactic(auto)]
impl Desk {
    /// Adds a client's call that enters. `start` is what the desk records of it.
    pub(crate) fn add_call(&mut self, call: u32, client: u8, op: Op, start: CallStart)
        requires may { MayAdd self.old (Event.Entered client call op) }
        requires starts { Starts (past self.old) op start }
        requires few { length (works (past self.old)) ≤ most_counted }
        ensures { Adds self.old self.new (Event.Entered client call op) }
    {
        self.paid -= 1;
        self.step = call;
        self.history.note(Event::Entered {
            client,
            n: call,
            op,
        });
        close_rows(&mut self.calls, &mut self.rows, start.closes, call);
        end_tx(
            &mut self.calls,
            &mut self.rows,
            &mut self.txs,
            start.ends,
            call,
        );
        put(
            &mut self.calls,
            CallRow {
                call: CallRecord {
                    client,
                    text: start.text,
                    params: start.params,
                    decided: start.decided,
                },
                work: start.work,
                tried: Tried::new(),
                ender: 0,
                tx_ender: 0,
            },
        );
        put(&mut self.unfinished, call);
        put(&mut self.sent, 0);
        self.lines.note_call();
        note_label(&mut self.labels, start.label, call);
        note_label(&mut self.tx_labels, start.tx_label, call);
    }

    /// Adds the driver's answer on a lent connection. `copy` is a copy of the answer, and `reply` is what the
    /// answer to a Query or a Next decides.
    pub(crate) fn add_answer(&mut self, entry: Entry, copy: DriverAnswer, reply: Option<Reply>)
        requires may { MayAdd self.old (Event.Heard entry) }
        requires decides { DecidesNow (past self.old) entry copy reply }
        requires rows { HearsRows (work (past self.old) entry.call_no) entry.call_no entry.call
            (handed_out (past self.old)) }
        requires begin { HearsBegin entry.call_no entry.call (transactions (past self.old)) }
        ensures { Adds self.old self.new (Event.Heard entry) }
    {
        self.paid -= 1;
        self.lines.note_entry(&self.calls, &entry);
        note_sent(&mut self.sent, &entry);
        self.step = entry.call_no;
        tell_answer(
            &mut self.calls,
            &mut self.rows,
            &mut self.txs,
            &entry,
            copy,
            reply,
        );
        self.history.note(Event::Heard(entry));
    }

    /// Adds that a connection was opened or closed, or couldn't be opened.
    pub(crate) fn add_house_answer(&mut self, entry: Entry)
        requires may { MayAdd self.old (Event.Heard entry) }
        requires opens { opens_or_shuts entry.call ≡ true }
        requires house { entry.call_no ≡ 0 }
        ensures { Adds self.old self.new (Event.Heard entry) }
    {
        self.paid -= 1;
        self.lines.note_entry(&self.calls, &entry);
        note_sent(&mut self.sent, &entry);
        self.step = entry.call_no;
        self.history.note(Event::Heard(entry));
    }

    /// Adds a move of the pool that is no refusal.
    pub(crate) fn add_move(&mut self, it: Move)
        requires may { MayAdd self.old (Event.Pool it) }
        requires owing { owed (past self.old) ≡ [] }
        requires other { is_refusal it ≡ false }
        ensures { Adds self.old self.new (Event.Pool it) }
    {
        self.paid -= 1;
        note_try(&mut self.calls, it, DriverAnswer::Bad);
        self.step = step_after_move(it, self.step);
        self.lines.note_lent(it);
        self.history.note(Event::Pool(it));
    }

    /// Adds the moves of the pool's newest call, one after another. `answer` is the driver's answer just before
    /// the first of them.
    pub(crate) fn add_moves(&mut self, answer: DriverAnswer)
        requires { MayAddMoves self.old self.old.pool.moves answer }
        ensures { AddsMoves self.old self.new self.old.pool.moves }
    {
        let count = self.pool.moves().len();
        note_tries(&mut self.calls, self.pool.moves(), answer);
        self.lines.note_all_lent(self.pool.moves());
        self.history.note_moves(self.pool.moves());
        self.paid -= count;
    }

    /// Adds that a limit is set, that a moment has come, or that a call begins to wait.
    pub(crate) fn add_beside(&mut self, event: Event)
        requires may { MayAdd self.old event }
        requires beside { is_beside event ≡ true }
        ensures { Adds self.old self.new event }
    {
        self.paid -= 1;
        self.step = 0;
        self.history.note(event);
    }

    /// Adds the reply of a call.
    pub(crate) fn add_reply(&mut self, call: u32, reply: Reply)
        requires { MayAdd self.old (Event.Replied call reply) }
        ensures { Adds self.old self.new (Event.Replied call reply) }
    {
        self.paid -= 1;
        self.step = 0;
        forget(&mut self.calls, call);
        self.history.note(Event::Replied { n: call, reply });
        take_out(&mut self.unfinished, call);
    }

    /// Adds the reply that a call's row says it has. `ended_by` is what has ended the transaction in which the
    /// call has sent nothing, if something has.
    pub(crate) fn add_due_reply(&mut self, call: u32, ended_by: Option<TxEnd>)
        requires may { MayAdd self.old (Event.Replied call
            (reply_or (settled_in self.old.closed_by ended_by self.old.caps.pinger
            (row_at self.old.calls.items call)))) }
        requires due { is_some (settled_in self.old.closed_by ended_by self.old.caps.pinger
            (row_at self.old.calls.items call)) ≡ true }
        ensures { Adds self.old self.new
            (Event.Replied call (reply_or (settled_in self.old.closed_by ended_by self.old.caps.pinger
            (row_at self.old.calls.items call)))) }
    {
        let reply = take_reply(
            &mut self.calls,
            call,
            self.closed_by,
            ended_by,
            self.caps.pinger,
        );
        self.paid -= 1;
        self.step = 0;
        self.history.note(Event::Replied { n: call, reply });
        take_out(&mut self.unfinished, call);
    }

    /// Adds the end of the run.
    pub(crate) fn add_end(&mut self)
        requires may { MayAdd self.old Event.Ended }
        requires few { length (works (past self.old)) ≤ most_counted }
        ensures { Adds self.old self.new Event.Ended }
    {
        self.paid -= 1;
        self.step = 0;
        self.history.note(Event::Ended);
        self.ended = true;
        end_run(&self.calls, &mut self.rows, &mut self.txs);
    }
}

/// Records the connection on which a call last sent something.
fn note_sent(sent: &mut Vec<u32>, entry: &Entry)
    ensures items { sent.new.items ≡ slice_set sent.old.items entry.now.call_no entry.now.conn }
    ensures len { vec_len sent.new ≡ vec_len sent.old }
    ensures capacity { vec_capacity sent.new ≡ vec_capacity sent.old }
{
    let call = entry.call_no as usize;
    if call < sent.len() {
        sent[call] = entry.conn;
    }
}

/// Returns the call whose own step is under way after a move that nobody owed.
fn step_after_move(it: Move, step: u32) -> u32
    ensures { result ≡ step_after_move it step }
{
    match it {
        Move::Lend { call, .. } => call,
        _ => step,
    }
}

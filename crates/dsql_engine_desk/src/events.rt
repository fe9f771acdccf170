//! The event methods. Each appends its event to the history and to the tables, and then the moves that the pool
//! makes because of it.
ghost use Rattle.std.specs.Prelude.{◌≡◌, ◌+◌, ◌∷◌, true, false, is_some};
ghost use Rattle.dsql_engine_desk.specs.Adding.{opens_or_shuts};
ghost use Rattle.dsql_engine_desk.specs.Appending.{MayAppend, MayAskNow, MayGiveBack, Asks, event_asked, Appends, DecidesNow, GivesBack, Makes, is_close, reply_now};
ghost use Rattle.dsql_engine_desk.specs.Desk.{trimmed, past, Stands, Owes};
ghost use Rattle.dsql_engine_effects.specs.Heard.{HearsBegin, HearsRows};
ghost use Rattle.dsql_engine_effects.specs.Starts.{Starts};
ghost use Rattle.dsql_laws_calls.specs.history.Readers.Calls.{reply_due};
ghost use Rattle.dsql_laws_calls.specs.history.Readers.Controls.{told, told_after};
ghost use Rattle.dsql_laws_calls.specs.history.Readers.HandedOut.{handed_out};
ghost use Rattle.dsql_laws_calls.specs.history.Readers.Tries.{newest_answer};
ghost use Rattle.dsql_laws_calls.specs.history.Readers.Transactions.{transactions};
ghost use Rattle.dsql_laws_calls.specs.history.Readers.Works.{work};
ghost use Rattle.dsql_laws_calls.specs.history.Rules.Asking.{ask_outcome};
ghost use Rattle.dsql_laws_calls.specs.history.Rules.Settled.{Settled};
ghost use Rattle.dsql_laws_calls.specs.history.declared.event.Op.{Op};

use crate::desk::Desk;
use dsql_engine_calls::CallStart;
use dsql_engine_calls::settling::first_end;
use dsql_engine_pooling::asking::ask;
use dsql_engine_pooling::pooling::{answer, close, control_pool, give_back};
use dsql_laws_calls::{
    AskFault, Asked, Control, DbEnd, DriverAnswer, DriverCall, Entry, Event, Fate, Move, Op, Owner,
    Reply,
};

#[tactic(auto, unfolding(crate::specs::Desk::Stands, crate::specs::Desk::Owes, dsql_history::specs::Legal::Allowed))]
impl Desk {
    // Appends the moves of the pool's newest call, one after another. `answer` is the driver's answer just
    // before the first of them.
    fn make_owed(&mut self, answer: DriverAnswer)
        requires owes { Owes self.old }
        requires answer { answer ≡ newest_answer (past self.old) }
        ensures { Makes self.old self.new }
    {
        self.add_moves(answer);
    }

    /// Enters a client's call that doesn't close the database. `start` is what the desk records of the call.
    pub fn enter(&mut self, call: u32, client: u8, op: Op, start: CallStart)
        requires may { MayAppend self.old (Event.Entered client call op) }
        requires settled { Settled (past self.old) }
        requires other { is_close op ≡ false }
        requires starts { Starts (past self.old) op start }
        ensures { Appends self.old self.new (Event.Entered client call op) }
    {
        self.add_call(call, client, op, start);
    }

    // Enters the call that closes the database. The desk then owes the moves that this makes due.
    fn enter_close(&mut self, call: u32, client: u8, start: CallStart)
        requires may { MayAppend self.old (Event.Entered client call Op.DbClose) }
        requires settled { Settled (past self.old) }
        requires starts { Starts (past self.old) Op.DbClose start }
        ensures owes { Owes self.new }
        ensures paid { self.new.paid + 1 ≡ self.old.paid }
        ensures event { past self.new ≡ Event.Entered client call Op.DbClose ∷ past self.old }
        ensures trimmed { trimmed self.new ≡ trimmed self.old }
    {
        self.add_call(call, client, Op::DbClose, start);
        self.closed_by = first_end(self.closed_by, DbEnd::Close);
        close(&mut self.pool);
    }

    /// Enters a client's call that closes the database, and closes the pool.
    pub fn close(&mut self, call: u32, client: u8, start: CallStart)
        requires may { MayAppend self.old (Event.Entered client call Op.DbClose) }
        requires settled { Settled (past self.old) }
        requires starts { Starts (past self.old) Op.DbClose start }
        ensures { Appends self.old self.new (Event.Entered client call Op.DbClose) }
    {
        self.enter_close(call, client, start);
        self.make_owed(DriverAnswer::Bad);
    }

    // Records that a connection was opened or closed, or couldn't be opened. The desk then owes the moves that
    // this makes due.
    fn hear_house(&mut self, entry: Entry)
        requires may { MayAppend self.old (Event.Heard entry) }
        requires settled { Settled (past self.old) }
        requires opens { opens_or_shuts entry.call ≡ true }
        ensures owes { Owes self.new }
        ensures paid { self.new.paid + 1 ≡ self.old.paid }
        ensures event { past self.new ≡ Event.Heard entry ∷ past self.old }
        ensures trimmed { trimmed self.new ≡ trimmed self.old }
    {
        answer(&mut self.pool, entry.conn, &entry.answer);
        self.add_house_answer(entry);
    }

    // Records the driver's answer on a lent connection.
    fn hear_lent(&mut self, entry: Entry, copy: DriverAnswer, reply: Option<Reply>)
        requires may { MayAppend self.old (Event.Heard entry) }
        requires settled { Settled (past self.old) }
        requires lent { opens_or_shuts entry.call ≡ false }
        requires decides { DecidesNow (past self.old) entry copy reply }
        requires rows { HearsRows (work (past self.old) entry.call_no) entry.call_no entry.call
            (handed_out (past self.old)) }
        requires begin { HearsBegin entry.call_no entry.call (transactions (past self.old)) }
        ensures { Appends self.old self.new (Event.Heard entry) }
    {
        self.add_answer(entry, copy, reply);
    }

    /// Records a driver's answer. If its connection was being opened or closed, the pool moves it. `copy` is a
    /// copy of the answer, and `reply` is what the answer to a Query or a Next decides.
    pub fn hear(&mut self, entry: Entry, copy: DriverAnswer, reply: Option<Reply>)
        requires may { MayAppend self.old (Event.Heard entry) }
        requires settled { Settled (past self.old) }
        requires decides { DecidesNow (past self.old) entry copy reply }
        requires rows { HearsRows (work (past self.old) entry.call_no) entry.call_no entry.call
            (handed_out (past self.old)) }
        requires begin { HearsBegin entry.call_no entry.call (transactions (past self.old)) }
        ensures { Appends self.old self.new (Event.Heard entry) }
    {
        if opens_or_shuts(&entry.call) {
            self.hear_house(entry);
            self.make_owed(copy);
        } else {
            self.hear_lent(entry, copy, reply);
        }
    }

    /// Lets a call ask the pool for a connection. The pool lends it one, begins to open one for it, or lets it
    /// wait. If too many are open, the pool refuses, which changes nothing.
    pub fn ask(&mut self, call: u32) -> Result<Asked, AskFault>
        requires { MayAskNow self.old call }
        ensures outcome { result ≡ ask_outcome (past self.old) call }
        ensures asks { Asks self.old self.new call }
    {
        let last = self.asks_last(call);
        let owner = self.owner(call);
        let outcome = ask(&mut self.pool, call, owner, last);
        match event_asked(call, owner, outcome) {
            Some(Event::Pool(it)) => self.add_move(it),
            Some(event) => self.add_beside(event),
            None => self.paid -= 1,
        }
        outcome
    }

    /// Gives a connection back from its call to the pool, which moves it.
    pub fn give_back(&mut self, conn: u32, fate: Fate)
        requires { MayGiveBack self.old conn fate }
        ensures { GivesBack self.old self.new conn }
    {
        give_back(&mut self.pool, conn, fate);
        self.add_moves(DriverAnswer::Bad);
    }

    // Records a limit or a moment. The desk then owes the moves that this makes due.
    fn note_control(&mut self, control: Control)
        requires may { MayAppend self.old (told control) }
        requires settled { Settled (past self.old) }
        ensures owes { Owes self.new }
        ensures paid { self.new.paid + 1 ≡ self.old.paid }
        ensures event { past self.new ≡ told control ∷ past self.old }
        ensures trimmed { trimmed self.new ≡ trimmed self.old }
    {
        self.add_beside(event_told(control));
        control_pool(&mut self.pool, control);
    }

    /// Sets a limit or the present moment. The pool then keeps to it.
    pub fn control(&mut self, control: Control)
        requires may { MayAppend self.old (told_after (past self.old) control) }
        requires settled { Settled (past self.old) }
        ensures { Appends self.old self.new (told_after (past self.old) control) }
    {
        let taken = self.taken(control);
        self.note_control(taken);
        self.make_owed(DriverAnswer::Bad);
    }

    /// Records that a call has this reply.
    pub fn tell(&mut self, call: u32, reply: Reply)
        requires { MayAppend self.old (Event.Replied call reply) }
        ensures { Appends self.old self.new (Event.Replied call reply) }
    {
        self.add_reply(call, reply);
    }

    /// Records that a call has the reply that is settled.
    pub fn tell_due(&mut self, call: u32)
        requires may { MayAppend self.old (Event.Replied call (reply_now (past self.old) call)) }
        requires due { is_some (reply_due (past self.old) call) ≡ true }
        ensures { Appends self.old self.new (Event.Replied call (reply_now (past self.old) call)) }
    {
        let ended_by = self.ended_before(call);
        self.add_due_reply(call, ended_by);
    }

    // Records that the run ended. The desk then owes the moves that this makes due.
    fn note_end(&mut self)
        requires may { MayAppend self.old Event.Ended }
        requires settled { Settled (past self.old) }
        ensures owes { Owes self.new }
        ensures paid { self.new.paid + 1 ≡ self.old.paid }
        ensures event { past self.new ≡ Event.Ended ∷ past self.old }
        ensures trimmed { trimmed self.new ≡ trimmed self.old }
    {
        self.add_end();
        self.closed_by = first_end(self.closed_by, DbEnd::EndOfRun);
        close(&mut self.pool);
    }

    /// Ends the run and closes the pool.
    pub fn end(&mut self)
        requires may { MayAppend self.old Event.Ended }
        requires settled { Settled (past self.old) }
        ensures { Appends self.old self.new Event.Ended }
    {
        self.note_end();
        self.make_owed(DriverAnswer::Bad);
    }
}

/// Returns whether this driver call opens or closes a connection. The layer itself makes such calls.
fn opens_or_shuts(call: &DriverCall) -> bool
    ensures { result ≡ opens_or_shuts call.now }
{
    matches!(call, DriverCall::Connect | DriverCall::Shut)
}

/// Returns the event that records this limit or moment.
fn event_told(control: Control) -> Event
    ensures { result ≡ told control }
{
    match control {
        Control::Tick(now) => Event::Ticked(now),
        Control::Set(setting, n) => Event::SetLimit(setting, n),
    }
}

/// Returns the event that follows from a call's asking, if there is one.
fn event_asked(call: u32, owner: Owner, outcome: Result<Asked, AskFault>) -> Option<Event>
    ensures { result ≡ event_asked call owner outcome }
{
    match outcome {
        Ok(Asked::Lent { conn, tenure }) => Some(Event::Pool(Move::Lend {
            conn,
            tenure,
            owner,
            call,
        })),
        Ok(Asked::Opening(conn)) => Some(Event::Pool(Move::OpenStart { conn, call })),
        Ok(Asked::Queued) => Some(Event::Waits(call)),
        _ => None,
    }
}

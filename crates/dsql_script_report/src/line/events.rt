//! Writes events as JSON.
ghost use Rattle.std.specs.Prelude.{◌≡◌, ◌≤◌, ◌++◌, [], ◌∷◌, codes, decimal, length, map};
ghost use Rattle.serde_json.specs.Data.{string};
ghost use Rattle.dsql_script_spelling.specs.LineValues.{worded, natural, texts_data};
ghost use Rattle.dsql_script_spelling.specs.CapsNames.{caps_names};
ghost use Rattle.dsql_script_report.specs.Lines.{owner_word, cause_word, limit_word, move_data, entry_data, json_of};
ghost use Rattle.dsql_script_spelling.specs.Spelling.{Spells};

use crate::calls::{write_answer, write_call};
use crate::ops::write_entered;
use crate::replies::write_reply;
use arrayvec::ArrayString;
use dsql_history::{Caps, CloseCause, Entry, Event, Move, Owner, Reply, Setting};
use dsql_script_spelling::{
    begin, begin_numbered, write_caps, write_integer, write_natural, write_numbered, write_word,
};
use itoa::Buffer;
use json::Writer;
use std::alloc::{AllocError, Global};

/// The length of an owner's longest name: five bytes for its kind, as in `call:`, and ten digits.
const OWNER_LEN: usize = 15;

/// Writes an owner that has a number, after the word for its kind.
fn write_numbered_owner(json: &mut Writer, kind: &str, n: u32) -> Result<(), AllocError>
    requires { length kind.now ≤ 5 }
    ensures { Spells result json.old json.new (string (kind.now ++ decimal n)) }
{
    let mut digits = Buffer::new();
    let mut owner = ArrayString::<OWNER_LEN>::new();
    owner.push_str(kind);
    owner.push_str(digits.format(n));
    json.string(owner.as_str())
}

/// Writes the owner of a connection, with its number.
fn write_owner(json: &mut Writer, owner: Owner) -> Result<(), AllocError>
    ensures { Spells result json.old json.new (string (owner_word owner)) }
{
    match owner {
        Owner::Call(n) => write_numbered_owner(json, "call:", n),
        Owner::Tx(n) => write_numbered_owner(json, "tx:", n),
        Owner::Pin(n) => write_numbered_owner(json, "pin:", n),
        Owner::House => json.string("house"),
    }
}

/// Returns the word for why a connection is closed.
fn word_of(cause: CloseCause) -> &'static str
    ensures { result.now ≡ cause_word cause }
{
    match cause {
        CloseCause::Bad => "bad",
        CloseCause::Invalid => "invalid",
        CloseCause::OverLimit => "over_limit",
        CloseCause::IdleFull => "idle_full",
        CloseCause::Lifetime => "lifetime",
        CloseCause::IdleTime => "idle_time",
        CloseCause::DbClosed => "db_closed",
        CloseCause::Discarded => "discarded",
    }
}

/// Writes that a connection begins to be opened, or couldn't be opened, and for which call, or 0 for none.
fn write_opening(json: &mut Writer, word: &str, conn: u32, call: u32) -> Result<(), AllocError>
    ensures { Spells result json.old json.new
        (worded word.now (natural conn ∷ natural call ∷ [])) }
{
    begin_numbered(json, word, conn)?;
    write_natural(json, u64::from(call))?;
    json.end_array()
}

/// Writes that a connection is lent, and to whom.
fn write_lend(json: &mut Writer, conn: u32, tenure: u32, owner: Owner) -> Result<(), AllocError>
    ensures { Spells result json.old json.new (worded (codes "lend")
        (natural conn ∷ natural tenure ∷ string (owner_word owner) ∷ [])) }
{
    begin_numbered(json, "lend", conn)?;
    write_natural(json, u64::from(tenure))?;
    write_owner(json, owner)?;
    json.end_array()
}

/// Writes that a connection begins to be closed, and why.
fn write_close(json: &mut Writer, conn: u32, cause: CloseCause) -> Result<(), AllocError>
    ensures { Spells result json.old json.new (move_data (Move.CloseStart conn cause)) }
{
    begin_numbered(json, "close", conn)?;
    json.string(word_of(cause))?;
    json.end_array()
}

/// Writes a connection's move. It doesn't show the call of a lending, since the owner's number says it.
fn write_move(json: &mut Writer, step: Move) -> Result<(), AllocError>
    ensures { Spells result json.old json.new (move_data step) }
{
    match step {
        Move::OpenStart { conn, call } => write_opening(json, "open", conn, call),
        Move::Lend {
            conn,
            tenure,
            owner,
            call: _,
        } => write_lend(json, conn, tenure, owner),
        Move::Back { conn } => write_numbered(json, "back", conn),
        Move::CloseStart { conn, cause } => write_close(json, conn, cause),
        Move::Gone { conn } => write_numbered(json, "gone", conn),
        Move::Fell { conn, call } => write_opening(json, "fell", conn, call),
    }
}

/// Writes a driver call with its answer, and for whom it was made.
fn write_entry(alloc: Global, json: &mut Writer, entry: &Entry) -> Result<(), AllocError>
    ensures { Spells result json.old json.new (entry_data entry.now) }
{
    begin_numbered(json, "heard", entry.conn)?;
    write_natural(json, u64::from(entry.tenure))?;
    write_owner(json, entry.owner)?;
    write_natural(json, u64::from(entry.call_no))?;
    write_natural(json, u64::from(entry.tx))?;
    write_call(alloc, json, &entry.call)?;
    write_answer(alloc, json, &entry.answer)?;
    json.end_array()
}

/// Writes the beginning of a run.
fn write_start(alloc: Global, json: &mut Writer, version: u8, caps: &Caps) -> Result<(), AllocError>
    ensures { Spells result json.old json.new (json_of (Event.Run version caps.now)) }
{
    begin_numbered(json, "run", u32::from(version))?;
    write_caps(alloc, json, caps)?;
    json.end_array()
}

/// Writes the present moment.
fn write_tick(json: &mut Writer, now: u64) -> Result<(), AllocError>
    ensures { Spells result json.old json.new (json_of (Event.Ticked now)) }
{
    begin(json, "tick")?;
    write_natural(json, now)?;
    json.end_array()
}

/// Returns the word for a limit.
fn limit_word(setting: Setting) -> &'static str
    ensures { result.now ≡ limit_word setting }
{
    match setting {
        Setting::MaxOpen => "maxopen",
        Setting::MaxIdle => "maxidle",
        Setting::MaxLife => "maxlife",
        Setting::MaxIdleTime => "maxidletime",
    }
}

/// Writes a limit and its value.
fn write_limit(json: &mut Writer, setting: Setting, n: i64) -> Result<(), AllocError>
    ensures { Spells result json.old json.new (json_of (Event.SetLimit setting n)) }
{
    begin(json, "set")?;
    json.string(limit_word(setting))?;
    write_integer(json, n)?;
    json.end_array()
}

/// Writes a call's number and its reply.
fn write_replied(alloc: Global, json: &mut Writer, n: u32, reply: &Reply) -> Result<(), AllocError>
    ensures { Spells result json.old json.new (json_of (Event.Replied n reply.now)) }
{
    begin_numbered(json, "reply", n)?;
    write_reply(alloc, json, reply)?;
    json.end_array()
}

/// Writes an event as an array that begins with its word.
pub(super) fn write_event(alloc: Global, json: &mut Writer, event: &Event) -> Result<(), AllocError>
    ensures { Spells result json.old json.new (json_of event.now) }
{
    match event {
        Event::Run { version, caps } => write_start(alloc, json, *version, caps),
        Event::Entered { client, n, op } => write_entered(alloc, json, *client, *n, op),
        Event::Heard(entry) => write_entry(alloc, json, entry),
        Event::Pool(step) => write_move(json, *step),
        Event::Waits(n) => write_numbered(json, "wait", *n),
        Event::Ticked(now) => write_tick(json, *now),
        Event::SetLimit(setting, n) => write_limit(json, *setting, *n),
        Event::Replied { n, reply } => write_replied(alloc, json, *n, reply),
        Event::Ended => write_word(json, "ended"),
    }
}

//! Reads the moves and the owners of connections.
ghost use Rattle.std.specs.Prelude.{◌≡◌, codes};
ghost use Rattle.serde_json.specs.View.{view};
ghost use Rattle.dsql_script_event_lines.specs.Moves as move_form;

use crate::parts::{number_at, text_at};
use dsql_history::{CloseCause, Move, Owner};
use dsql_script_calls::moment;
use serde_json::Value;

/// Returns the number that these digits are, or `None` if it doesn't fit a `u32`.
fn numbered(digits: &str) -> Option<u32>
    ensures { result ≡ move_form.numbered digits.now }
{
    u32::try_from(moment(digits)?).ok()
}

/// Returns the number after the word for a kind of owner, or `None`.
fn number_behind(kind: &str, word: &str) -> Option<u32>
    ensures { result ≡ move_form.number_behind kind.now word.now }
{
    match word.strip_prefix(kind) {
        Some(digits) => numbered(digits),
        None => None,
    }
}

/// Returns the owner of a connection that a word names, or `None`.
fn owner_of(word: &str) -> Option<Owner>
    ensures { result ≡ move_form.owner_of word.now }
{
    if word == "house" {
        return Some(Owner::House);
    }
    let call = number_behind("call:", word).map(Owner::Call);
    let tx = number_behind("tx:", word).map(Owner::Tx);
    let pin = number_behind("pin:", word).map(Owner::Pin);
    call.or(tx.or(pin))
}

/// Returns the owner of a connection at this place of the line's array, or `None`.
pub fn owner_at(line: &Value, place: usize) -> Option<Owner>
    ensures { result ≡ move_form.owner_at place (view line.now) }
{
    owner_of(text_at(line, place)?)
}

fn cause_of(word: &str) -> Option<CloseCause>
    ensures { result ≡ move_form.cause_of word.now }
{
    match word {
        "bad" => Some(CloseCause::Bad),
        "invalid" => Some(CloseCause::Invalid),
        "over_limit" => Some(CloseCause::OverLimit),
        "idle_full" => Some(CloseCause::IdleFull),
        "lifetime" => Some(CloseCause::Lifetime),
        "idle_time" => Some(CloseCause::IdleTime),
        "db_closed" => Some(CloseCause::DbClosed),
        "discarded" => Some(CloseCause::Discarded),
        _ => None,
    }
}

/// Reads the move that lends a connection. A line doesn't show for which call, so the owner's number stands for
/// it.
fn read_lend(line: &Value) -> Option<Move>
    ensures { result ≡ move_form.lend_of (view line.now) }
{
    let conn = number_at(line, 1)?;
    let tenure = number_at(line, 2)?;
    let owner = owner_at(line, 3)?;
    Some(Move::Lend {
        conn,
        tenure,
        owner,
        call: owner.number(),
    })
}

fn read_close(line: &Value) -> Option<Move>
    ensures { result ≡ move_form.close_of (view line.now) }
{
    let conn = number_at(line, 1)?;
    let cause = cause_of(text_at(line, 2)?)?;
    Some(Move::CloseStart { conn, cause })
}

fn read_open(line: &Value) -> Option<Move>
    ensures { result ≡ move_form.opening_of Move.OpenStart (view line.now) }
{
    let conn = number_at(line, 1)?;
    let call = number_at(line, 2)?;
    Some(Move::OpenStart { conn, call })
}

fn read_fell(line: &Value) -> Option<Move>
    ensures { result ≡ move_form.opening_of Move.Fell (view line.now) }
{
    let conn = number_at(line, 1)?;
    let call = number_at(line, 2)?;
    Some(Move::Fell { conn, call })
}

fn read_back(line: &Value) -> Option<Move>
    ensures { result ≡ move_form.move_by (codes "back") (view line.now) }
{
    let conn = number_at(line, 1)?;
    Some(Move::Back { conn })
}

fn read_gone(line: &Value) -> Option<Move>
    ensures { result ≡ move_form.move_by (codes "gone") (view line.now) }
{
    let conn = number_at(line, 1)?;
    Some(Move::Gone { conn })
}

/// Reads a move by the word of its line. Returns `None` if the word names no move, or a part of the move can't
/// be read.
pub fn read_move(word: &str, line: &Value) -> Option<Move>
    ensures { result ≡ move_form.move_by word.now (view line.now) }
{
    match word {
        "open" => read_open(line),
        "lend" => read_lend(line),
        "back" => read_back(line),
        "close" => read_close(line),
        "gone" => read_gone(line),
        "fell" => read_fell(line),
        _ => None,
    }
}

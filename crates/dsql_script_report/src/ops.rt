//! Writes the calls of clients as JSON.
ghost use Rattle.std.specs.Prelude.{flat_map};
ghost use Rattle.serde_json.specs.Data.{string};
ghost use Rattle.dsql_script_report.specs.LineOps.{if_any, op_words, op_data, entered_data};
ghost use Rattle.dsql_script_spelling.specs.Spelling.{tokens_of, Adds, Spells};

use crate::words::{begin_words, labelled, one_words, query_words, scan_words, target_word};
use dsql_history::Op;
use dsql_script_spelling::{begin_numbered, write_natural, write_statement};
use json::Writer;
use std::alloc::{AllocError, Global};

/// Writes the words of the line that asked for a call, without the client.
fn write_words(alloc: Global, json: &mut Writer, op: &Op) -> Result<(), AllocError>
    ensures { Spells result json.old json.new (string (op_words op.now)) }
{
    let words = match op {
        Op::Exec { target, .. } => labelled(alloc, "exec ", target_word(target))?,
        Op::Query { label, target, .. } => query_words(alloc, label.as_str(), target)?,
        Op::One { target, dests, .. } => one_words(alloc, target, dests.as_slice())?,
        Op::Next { rows } => labelled(alloc, "next ", rows.as_str())?,
        Op::Scan { rows, dests } => scan_words(alloc, rows.as_str(), dests.as_slice())?,
        Op::RowsClose { rows } => labelled(alloc, "rowsclose ", rows.as_str())?,
        Op::Err { rows } => labelled(alloc, "err ", rows.as_str())?,
        Op::Begin {
            label,
            level,
            read_only,
        } => begin_words(alloc, label.as_str(), *level, *read_only)?,
        Op::Commit { tx } => labelled(alloc, "commit ", tx.as_str())?,
        Op::Rollback { tx } => labelled(alloc, "rollback ", tx.as_str())?,
        Op::Ping => return json.string("ping db"),
        Op::DbClose => return json.string("dbclose"),
        Op::Stats => return json.string("stats"),
    };
    json.string(words.as_str())
}

/// Writes the array of that line, if it has one.
fn write_array(alloc: Global, json: &mut Writer, op: &Op) -> Result<(), AllocError>
    ensures { Adds result json.old json.new (flat_map tokens_of (if_any (op_data op.now))) }
{
    match op {
        Op::Exec { text, args, .. } | Op::Query { text, args, .. } | Op::One { text, args, .. } => {
            write_statement(alloc, json, text, args.as_slice())
        }
        Op::Next { .. }
        | Op::Scan { .. }
        | Op::RowsClose { .. }
        | Op::Err { .. }
        | Op::Begin { .. }
        | Op::Commit { .. }
        | Op::Rollback { .. }
        | Op::Ping
        | Op::DbClose
        | Op::Stats => Ok(()),
    }
}

/// Writes a client's call: the client, the call's number, and the words and the array of the line that asked
/// for it.
pub fn write_entered(
    alloc: Global,
    json: &mut Writer,
    client: u8,
    n: u32,
    op: &Op,
) -> Result<(), AllocError>
    ensures { Spells result json.old json.new (entered_data client n op.now) }
{
    begin_numbered(json, "enter", u32::from(client))?;
    write_natural(json, u64::from(n))?;
    write_words(alloc, json, op)?;
    write_array(alloc, json, op)?;
    json.end_array()
}

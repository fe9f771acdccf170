//! The lines of a generated script.
ghost use Rattle.std.specs.Prelude.{◌≡◌, ◌≤◌, ◌++◌, OnOk};
ghost use Rattle.std.specs.List.{concat, flat_map};
ghost use Rattle.dsql_script_generator.specs.Script.{block_of, client_of, step_at, words_of, line_text};

use itoa::Buffer;
use std::alloc::AllocError;

/// The number of lines in a block.
const BLOCK: u32 = 8;

/// The number of clients that take turns.
const CLIENTS: u32 = 64;

/// A step of a block: each line of the block takes one, in this order.
#[derive(Clone, Copy)]
pub(crate) enum Step {
    /// Begins a transaction.
    Begin,
    /// Writes a name.
    SetName,
    /// Raises a number.
    AddOne,
    /// Writes a null.
    SetNull,
    /// Queries the null's row.
    Query,
    /// Fetches the row.
    Next,
    /// Reads the row.
    Scan,
    /// Commits the transaction.
    Commit,
}

/// Returns the step at a place of a block, counted from 0.
fn step_at(place: u32) -> Step
    ensures { result ≡ step_at place }
{
    match place {
        0 => Step::Begin,
        1 => Step::SetName,
        2 => Step::AddOne,
        3 => Step::SetNull,
        4 => Step::Query,
        5 => Step::Next,
        6 => Step::Scan,
        _ => Step::Commit,
    }
}

/// Returns the block of a line. Both are counted from 1.
fn block_of(line: u32) -> u32
    requires { 1 ≤ line }
    ensures { result ≡ block_of line }
{
    (line - 1) / BLOCK + 1
}

/// Returns the client of a block.
fn client_of(block: u32) -> u32
    requires { 1 ≤ block }
    ensures { result ≡ client_of block }
{
    (block - 1) % CLIENTS + 1
}

/// Appends the texts in their order.
#[tactic(auto, using(std::proofs::lemmas::Grind::common_steps, std::proofs::lemmas::List::flat_map_more))]
fn append_all(texts: &[&str], lines: &mut Vec<u8>) -> Result<(), AllocError>
    ensures { OnOk result (lines.new.items ≡ lines.old.items ++ flat_map (λ t. t.now) texts.now) }
{
    for text in texts {
        lines.extend_from_slice(text.as_bytes())?;
    }
    Ok(())
}

/// Appends what follows the client's word in a step's line, in the block of this number.
fn append_words(step: Step, block: &str, lines: &mut Vec<u8>) -> Result<(), AllocError>
    ensures { OnOk result (lines.new.items ≡ lines.old.items ++ concat (words_of step block.now)) }
{
    match step {
        Step::Begin => append_all(&[" begin x", block, " db"], lines),
        Step::SetName => append_all(
            &[" exec x", block, " [\"SET ? ?\",\"u", block, "\",\"Ann\"]"],
            lines,
        ),
        Step::AddOne => append_all(&[" exec x", block, " [\"ADD ? ?\",\"n\",1]"], lines),
        Step::SetNull => append_all(
            &[" exec x", block, " [\"SET ? ?\",\"e", block, "\",null]"],
            lines,
        ),
        Step::Query => append_all(
            &[
                " query r",
                block,
                " x",
                block,
                " [\"LIST ?\",\"e",
                block,
                "\"]",
            ],
            lines,
        ),
        Step::Next => append_all(&[" next r", block], lines),
        Step::Scan => append_all(&[" scan r", block, " text,null:text"], lines),
        Step::Commit => append_all(&[" commit x", block], lines),
    }
}

/// Appends a line, counted from 1, and its line feed.
pub(crate) fn append_line(line: u32, lines: &mut Vec<u8>) -> Result<(), AllocError>
    requires { 1 ≤ line }
    ensures { OnOk result (lines.new.items ≡ lines.old.items ++ line_text line) }
{
    let block = block_of(line);
    let mut block_digits = Buffer::new();
    let mut client_digits = Buffer::new();
    append_all(&["c", client_digits.format(client_of(block))], lines)?;
    append_words(
        step_at((line - 1) % BLOCK),
        block_digits.format(block),
        lines,
    )?;
    lines.push(b'\n')?;
    Ok(())
}

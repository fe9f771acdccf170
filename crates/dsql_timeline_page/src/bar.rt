//! Bars, and how they are written.
ghost use Rattle.std.specs.Prelude.{◌≡◌, ◌++◌, OnOk};
ghost use Rattle.dsql_timeline_page.specs.Bars.{class_word, kind_text, place_text, bar_text};

use crate::escape::append_escaped;
use crate::texts::append_all;
use itoa::Buffer;
use std::alloc::AllocError;

/// How many colours owners have.
const COLOURS: u32 = 6;

/// What a bar shows. It decides how the style sheet paints the bar.
#[derive(Clone, Copy)]
pub enum Class {
    /// The lane of a connection or of a client.
    Lane,
    /// The beginning or the end of a run.
    Edge,
    /// A moment to which the clock was set.
    Moment,
    /// A limit that was set.
    Limit,
    /// A connection that is being opened.
    Opening,
    /// A connection that is idle.
    Idle,
    /// A connection that is lent: a tenure, in its owner's colour.
    Lent,
    /// A connection that is being closed.
    Closing,
    /// The end of a connection.
    Gone,
    /// A transaction, from its begin to its commit or rollback.
    Transaction,
    /// A client's call, from its entry to its reply, in its own colour.
    Call,
    /// A call that waits for a connection.
    Waiting,
    /// Another answer of the driver, or a reply without an error.
    Done,
    /// A fault of the driver, or a reply with an error.
    Fault,
    /// A driver call that the driver declined, or a connection that couldn't be opened.
    Refusal,
}

/// Returns the word by which the style sheet knows a class.
fn class_word(class: Class) -> &'static str
    ensures { result.now ≡ class_word class }
{
    match class {
        Class::Lane => "lane",
        Class::Edge => "edge",
        Class::Moment => "moment",
        Class::Limit => "limit",
        Class::Opening => "opening",
        Class::Idle => "idle",
        Class::Lent => "lent",
        Class::Closing => "closing",
        Class::Gone => "gone",
        Class::Transaction => "transaction",
        Class::Call => "call",
        Class::Waiting => "waiting",
        Class::Done => "done",
        Class::Fault => "fault",
        Class::Refusal => "refusal",
    }
}

/// A bar of a picture. Its place and its size are counted in columns and rows.
#[derive(Clone, Copy)]
pub struct Bar {
    pub class: Class,
    /// The number of the owner, which decides the colour.
    pub owner: u32,
    pub column: usize,
    pub row: usize,
    pub columns: usize,
    pub rows: usize,
}

/// Appends the beginning of a bar's tag, with its class and its colour.
fn append_kind(bar: &Bar, page: &mut Vec<u8>) -> Result<(), AllocError>
    ensures { OnOk result (page.new.items ≡ page.old.items ++ kind_text bar.now) }
{
    let word = class_word(bar.class);
    let mut colour = Buffer::new();
    append_all(
        &[
            "<svg class=\"",
            word,
            " h",
            colour.format(bar.owner % COLOURS),
        ],
        page,
    )
}

/// Appends the rest of a bar's tag, with its place and its size.
fn append_place(bar: &Bar, page: &mut Vec<u8>) -> Result<(), AllocError>
    ensures { OnOk result (page.new.items ≡ page.old.items ++ place_text bar.now) }
{
    let mut column = Buffer::new();
    let mut row = Buffer::new();
    let mut columns = Buffer::new();
    let mut rows = Buffer::new();
    append_all(
        &[
            "\" x=\"",
            column.format(bar.column),
            "em\" y=\"",
            row.format(bar.row),
            "rem\" width=\"",
            columns.format(bar.columns),
            "em\" height=\"",
            rows.format(bar.rows),
            "rem\"><title>",
        ],
        page,
    )
}

/// Appends a bar with its name and its title.
#[tactic(auto, unfolding(crate::specs::Bars::bar_text))]
pub(crate) fn append_bar(
    bar: &Bar,
    name: &[u8],
    title: &[u8],
    page: &mut Vec<u8>,
) -> Result<(), AllocError>
    ensures { OnOk result (page.new.items ≡ page.old.items ++ bar_text bar.now name.now title.now) }
{
    append_kind(bar, page)?;
    append_place(bar, page)?;
    append_escaped(title, page)?;
    append_all(
        &["</title><rect width=\"100%\" height=\"100%\"/><text x=\"2\" y=\"12\">"],
        page,
    )?;
    append_escaped(name, page)?;
    append_all(&["</text></svg>\n"], page)
}

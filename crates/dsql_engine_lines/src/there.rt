//! What was heard on connections since they were lent.
ghost use Rattle.std.specs.Prelude.{◌≡◌, ◌+◌, ◌≤◌, ◌<◌, length, slice_set, slice_index_or, vec_len, vec_capacity};
ghost use Rattle.dsql_engine_lines.specs.There.{nothing_there, then_there, lent_by, lent_by_all};

use dsql_engine_exchanged::{Beginning, Ending, Exchanged};
use dsql_laws_calls::{Entry, Move};

/// What was heard on a connection since it was lent, as far as the next driver call depends on it.
#[derive(Drop)]
pub struct HeardThere {
    /// What was heard, taken as the line of one call.
    pub made: Exchanged,
    /// What was heard in the line of the begin of the transaction to which it is lent.
    pub beginning: Beginning,
    /// What was heard of that transaction's end.
    pub ending: Ending,
}

impl HeardThere {
    /// Returns the record of a connection on which nothing was heard yet.
    pub fn new() -> HeardThere
        ensures { result ≡ nothing_there }
    {
        HeardThere {
            made: Exchanged::new(),
            beginning: Beginning::new(),
            ending: Ending::new(),
        }
    }

    /// Records one more answer.
    pub fn hear(&mut self, entry: &Entry)
        ensures { self.new ≡ then_there entry.now self.old }
    {
        self.made.hear(entry);
        self.beginning.hear_if(entry.owner.number(), entry);
        self.ending.hear(entry);
    }
}

/// Records that nothing was heard yet on a connection that begins to be opened or is lent.
pub(crate) fn note_lent(there: &mut Vec<HeardThere>, it: Move)
    requires { vec_len there.old < vec_capacity there.old }
    ensures items { there.new.items ≡ lent_by it there.old.items }
    ensures len { vec_len there.new ≤ vec_len there.old + 1 }
    ensures capacity { vec_capacity there.new ≡ vec_capacity there.old }
{
    match it {
        Move::OpenStart { .. } => there.push_reserved(HeardThere::new()),
        Move::Lend { conn, .. } => begin_anew(there, conn),
        _ => {}
    }
}

/// Records, for moves one after another, that nothing was heard yet on a connection that begins to be opened or
/// is lent.
pub(crate) fn note_all_lent(there: &mut Vec<HeardThere>, moves: &[Move])
    requires { vec_len there.old + length moves.now ≤ vec_capacity there.old }
    ensures items { there.new.items ≡ lent_by_all moves.now there.old.items }
    ensures len { vec_len there.new ≤ vec_len there.old + length moves.now }
    ensures capacity { vec_capacity there.new ≡ vec_capacity there.old }
{
    for it in moves {
        note_lent(there, *it);
    }
}

/// Records that nothing was heard yet on a connection that is lent.
fn begin_anew(there: &mut Vec<HeardThere>, conn: u32)
    ensures items { there.new.items ≡ slice_set there.old.items conn nothing_there }
    ensures len { vec_len there.new ≡ vec_len there.old }
    ensures capacity { vec_capacity there.new ≡ vec_capacity there.old }
{
    let conn = conn as usize;
    if conn < there.len() {
        there[conn] = HeardThere::new();
    }
}

/// Records what was heard on a connection.
pub(crate) fn note_answer(there: &mut Vec<HeardThere>, entry: &Entry)
    ensures items { there.new.items ≡ slice_set there.old.items entry.now.conn
        (then_there entry.now (slice_index_or there.old.items entry.now.conn nothing_there)) }
    ensures len { vec_len there.new ≡ vec_len there.old }
    ensures capacity { vec_capacity there.new ≡ vec_capacity there.old }
{
    let conn = entry.conn as usize;
    if conn < there.len() {
        there[conn].hear(entry);
    }
}

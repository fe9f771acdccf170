//! What a judge keeps of the journal so far.
ghost use Rattle.std.specs.Prelude.{◌≡◌, ◌+◌, ◌<◌, ◌≤◌, ◌∷◌, [], OnOk, OnErr};

use crate::so_far::SoFar;
use dsql_tenure_asked::{Cursor, Handle};
use dsql_tenure_journal::Entry;
use dsql_value::Memory;
use dsql_value_past::Past;
use indexmap::IndexSet;
use std::alloc::Global;

/// What the judge keeps of a journal. It keeps no entry, so the work for one more entry grows with what is
/// live.
#[derive(Drop)]
pub struct Tables {
    /// The journal itself, for proofs alone.
    pub past: Past<Entry>,
    pub conn: u32,
    /// The number of the last tenure, and what is kept of that tenure.
    pub tenure: u32,
    pub so_far: SoFar,
    /// The Connect was answered Bad or Fail.
    pub refused: bool,
    pub shut: bool,
    /// The tenure of the first Bad answer.
    pub bad_tenure: Option<u32>,
    /// A Valid was answered Invalid.
    pub invalid: bool,
    /// Live handles and cursors, the newest first.
    pub handles: Vec<Handle>,
    pub cursors: Vec<Cursor>,
    /// The transactions without a Commit or Rollback, the newest first.
    pub unended: Vec<u32>,
    /// All transactions that were begun.
    pub begun: IndexSet<u32>,
    /// How many more entries there is memory for.
    pub room: u32,
}

#[tactic(auto, unfolding(crate::specs::Tables::Stands))]
impl Tables {
    ghost use Rattle.dsql_tenure.specs.Tables.{past, Stands};

    /// Returns the tables of a connection without entries.
    pub fn new(alloc: Global, conn: u32) -> Tables
        ensures stands { Stands result }
        ensures past { past result ≡ [] }
        ensures conn { result.conn ≡ conn }
    {
        Tables {
            past: Past::new(),
            conn,
            tenure: 0,
            so_far: SoFar::nothing(),
            refused: false,
            shut: false,
            bad_tenure: None,
            invalid: false,
            handles: Vec::new(alloc),
            cursors: Vec::new(alloc),
            unended: Vec::new(alloc),
            begun: IndexSet::new(alloc),
            room: 0,
        }
    }
}

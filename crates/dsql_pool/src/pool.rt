mod asking;
mod giving_back;
mod leaving;
mod making;
mod opening;
mod questions;
mod settings;
mod statistics;
mod ticks;

ghost use Rattle.std.specs.Prelude.{◌≡◌, ◌+◌, ◌<◌, ◌≤◌, [], length, vec_len, vec_capacity, OnOk, OnErr};

use crate::conn::Place;
use crate::conns::Conns;
use crate::moves::Move;
use crate::stats::Counts;
use dsql_time::{Limits, standard};
use dsql_value::Memory;
use dsql_wait::Waiting;
use std::alloc::Global;
use std::marker::Model;

/// The most connections that are open at a time, whatever the limits are.
pub const MOST_OPEN: u32 = 1000;

// The most moves that a call makes beside the closings of all idle connections: one, and the openings that are
// due.
const MOST_OTHER_MOVES: usize = MOST_OPEN as usize + 1;

/// The pool.
///
/// Contracts see the pool as one value, with the moves that its newest call made. They also see for how many
/// more calls there is memory, and for how many moves of one call.
///
/// A call that makes moves keeps them, and `moves` returns them. So a call takes no memory after `reserve`.
#[derive(Drop)]
pub struct Pool {
    conns: Conns,
    idle: Vec<u32>,
    waiting: Waiting,
    limits: Limits,
    moment: u64,
    closed: bool,
    counts: Counts,
    moves: Vec<Move>,
}

impl Model for Pool {
    ghost use Rattle.std.specs.Prelude.{◌+◌, ◌-◌, length, min, nat_le, if◌then◌else◌, vec_len, vec_capacity};
    ghost use Rattle.dsql_pool.specs.Pooled.{Table, most_open, most_other_moves};

    ghost Value = { Table };

    ghost view = { λ p. record {
      pooled = record {
        conns = p.conns.conns;
        opened = p.conns.opened;
        idle = p.idle.items;
        waiting = p.waiting.requests;
        limits = p.limits;
        moment = p.moment;
        closed = p.closed;
        counts = p.counts;
        drawn = p.conns.drawn;
      };
      moves = p.moves.items;
      spare = if nat_le most_open p.conns.capacity
          then min p.waiting.spare (min (vec_capacity p.idle - vec_len p.idle)
          (vec_capacity p.moves - (most_other_moves + vec_len p.idle)))
          else 0;
      capacity = vec_capacity p.moves;
    } };
}

impl Pool {
    ghost use Rattle.dsql_pool.specs.Pooled.{fresh, open_count, place_at, most_other_moves};

    /// Returns a pool without connections, under the standard limits, at the moment 0. Takes no memory.
    pub fn new(alloc: Global) -> Pool
        ensures pooled { result.pooled ≡ fresh }
        ensures moves { result.moves ≡ [] }
    {
        Pool {
            conns: Conns::new(alloc),
            idle: Vec::new(alloc),
            waiting: Waiting::new(alloc),
            limits: standard(),
            moment: 0,
            closed: false,
            counts: Counts::none(),
            moves: Vec::new(alloc),
        }
    }

    /// Takes memory for this many more calls.
    pub fn reserve(&mut self, calls: u32) -> Result<(), Memory>
        ensures ok { OnOk result (calls ≤ self.new.spare) }
        ensures full { OnErr result (self.old.spare < calls) }
        ensures room { OnOk result (0 < calls → most_other_moves + length self.new.pooled.idle ≤ self.new.capacity) }
        ensures pooled { self.new.pooled ≡ self.old.pooled }
        ensures moves { self.new.moves ≡ self.old.moves }
        ensures spare { self.old.spare ≤ self.new.spare }
    {
        if calls == 0 {
            return Ok(());
        }
        self.conns.reserve(MOST_OPEN)?;
        self.waiting.reserve(calls)?;
        self.idle.reserve(calls as usize)?;
        let most = MOST_OTHER_MOVES + self.idle.len() + calls as usize;
        reserve_moves(&mut self.moves, most)
    }

    // Clears the moves and takes memory for one call.
    fn make_ready(&mut self) -> Result<(), Memory>
        ensures ok { OnOk result (0 < self.new.spare) }
        ensures room { OnOk result (most_other_moves + length self.new.pooled.idle ≤ self.new.capacity) }
        ensures full { OnErr result (self.old.spare ≡ 0) }
        ensures pooled { self.new.pooled ≡ self.old.pooled }
        ensures moves { self.new.moves ≡ [] }
        ensures spare { self.old.spare ≤ self.new.spare }
    {
        self.moves.clear();
        self.reserve(1)
    }

    /// Returns how many connections are open, in any of the four sets.
    pub fn held(&self) -> u64
        ensures { result ≡ open_count self.now.pooled }
    {
        self.conns.count()
    }

    /// Returns how many openings and lendings have begun.
    pub fn drawn(&self) -> u32
        ensures { result ≡ self.now.pooled.drawn }
    {
        self.conns.drawn()
    }

    /// Returns the present moment, in nanoseconds.
    pub fn moment(&self) -> u64
        ensures { result ≡ self.now.pooled.moment }
    {
        self.moment
    }

    /// Returns the place of a connection, if it is open.
    pub fn place(&self, conn: u32) -> Option<Place>
        ensures { result ≡ place_at self.now.pooled conn }
    {
        match self.conns.at(conn) {
            Some(row) => Some(row.place),
            None => None,
        }
    }

    /// Returns the moves that the newest call made, in their order.
    pub fn moves(&self) -> &[Move]
        ensures { result.now ≡ self.now.moves }
    {
        self.moves.as_slice()
    }
}

// Takes memory for this many moves in all.
fn reserve_moves(moves: &mut Vec<Move>, most: usize) -> Result<(), Memory>
    ensures ok { OnOk result (most ≤ vec_capacity moves.new) }
    ensures full { OnErr result (vec_capacity moves.old < most) }
    ensures moves { moves.new.items ≡ moves.old.items }
    ensures len { vec_len moves.new ≡ vec_len moves.old }
    ensures capacity { vec_capacity moves.old ≤ vec_capacity moves.new }
{
    moves.reserve(most.saturating_sub(moves.len()))?;
    Ok(())
}

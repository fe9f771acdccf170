ghost use Rattle.std.specs.Prelude.{◌≡◌, ◌+◌, ◌<◌, ◌≤◌, [], ◌∷◌, ◌++◌, length, map, count_by, vec_len, vec_capacity, position, ◌==◌, OnOk, OnErr, IfSome};
ghost use Rattle.std.specs.List.{list_any};
ghost use Rattle.dsql_pool.specs.Places.{conn_of, is_for, is_free};
ghost use Rattle.dsql_pool.specs.Pooled.{most_drawn_within_a_call};
ghost use Rattle.dsql_pool.specs.Changes.{conn_changed, opening, lent, back, closing, gone, unwanted, unwanted_by};

use crate::conn::Conn;
use dsql_tenure_journal::Owner;
use dsql_value::Memory;
use std::alloc::Global;
use std::marker::Model;

/// The open connections.
///
/// Contracts see them as a list, in the order in which they began to be opened, and how many were opened so
/// far. They also see how many openings and lendings have begun, and for how many connections in all there is
/// memory.
#[derive(Drop)]
pub struct Conns {
    rows: Vec<Conn>,
    opened: u32,
    drawn: u32,
}

impl Model for Conns {
    ghost use Rattle.std.specs.Prelude.{vec_capacity};
    ghost use Rattle.dsql_pool.specs.Places.{Numbered, AreDrawn};

    ghost Value = { Numbered };

    ghost view = { λ c. record {
      conns = c.rows.items;
      opened = c.opened;
      drawn = c.drawn;
      capacity = vec_capacity c.rows;
    } };

    ghost invariant = { λ c. AreDrawn c.rows.items c.opened c.drawn };
}

impl Conns {
    /// Returns a value without connections. Takes no memory.
    pub fn new(alloc: Global) -> Conns
        ensures conns { result.conns ≡ [] }
        ensures opened { result.opened ≡ 0 }
        ensures drawn { result.drawn ≡ 0 }
    {
        Conns {
            rows: Vec::new(alloc),
            opened: 0,
            drawn: 0,
        }
    }

    /// Takes memory for this many connections in all.
    pub fn reserve(&mut self, most: u32) -> Result<(), Memory>
        ensures ok { OnOk result (most ≤ self.new.capacity) }
        ensures full { OnErr result (self.old.capacity < most) }
        ensures conns { self.new.conns ≡ self.old.conns }
        ensures opened { self.new.opened ≡ self.old.opened }
        ensures drawn { self.new.drawn ≡ self.old.drawn }
        ensures capacity { self.old.capacity ≤ self.new.capacity }
    {
        let more = (most as usize).saturating_sub(self.rows.len());
        self.rows.reserve(more)?;
        Ok(())
    }

    /// Returns how many openings and lendings have begun.
    pub fn drawn(&self) -> u32
        ensures { result ≡ self.now.drawn }
    {
        self.drawn
    }

    /// Returns how many connections are open.
    pub fn count(&self) -> u64
        ensures { result ≡ length self.now.conns }
    {
        self.rows.len() as u64
    }

    /// Returns the connections in their order.
    pub fn rows(&self) -> &[Conn]
        ensures { result.now ≡ self.now.conns }
    {
        self.rows.as_slice()
    }

    /// Returns how many connections are being opened for no request of their own.
    pub fn free_openings(&self) -> u64
        ensures { result ≡ count_by (λ conn. is_free conn.place) self.now.conns }
    {
        self.rows.iter().filter(|conn| conn.place.is_free()).count() as u64
    }

    /// Returns whether a connection is being opened for the request of this call.
    pub fn opens_for(&self, call: u32) -> bool
        ensures { result ≡ list_any (λ conn. is_for call conn.place) self.now.conns }
    {
        self.rows.iter().any(|conn| conn.place.is_for(call))
    }

    /// Returns the number of the next connection.
    pub fn next_number(&self) -> u32
        requires { self.now.drawn < most_drawn_within_a_call }
        ensures { result ≡ self.now.opened + 1 }
    {
        self.opened + 1
    }

    /// Returns the connection of this number, if it is open.
    pub fn at(&self, conn: u32) -> Option<Conn>
        ensures conn { result ≡ conn_of conn self.now.conns }
        ensures lends { IfSome result (λ conn. conn.lends ≤ self.now.drawn) }
        ensures uses { IfSome result (λ conn. conn.uses ≤ self.now.drawn) }
    {
        row_of(&self.rows, conn)
    }

    /// Begins an opening, for the request of an owner or for no request of its own.
    pub fn begin(&mut self, wanted: Option<Owner>)
        requires room { length self.old.conns < self.old.capacity }
        requires drawn { self.old.drawn < most_drawn_within_a_call }
        ensures conns { self.new.conns ≡ self.old.conns ++ opening (self.old.opened + 1) wanted ∷ [] }
        ensures opened { self.new.opened ≡ self.old.opened + 1 }
        ensures drawn { self.new.drawn ≡ self.old.drawn + 1 }
        ensures capacity { self.old.capacity ≤ self.new.capacity }
    {
        let number = self.opened + 1;
        self.rows.push_reserved(Conn::opening(number, wanted));
        self.opened = number;
        self.drawn += 1;
    }

    /// Lends a connection, if it is open.
    pub fn lend(&mut self, conn: u32, tenure: u32, owner: Owner, moment: u64)
        requires { self.old.drawn < most_drawn_within_a_call }
        ensures conns { self.new.conns ≡ conn_changed conn (lent tenure owner moment) self.old.conns }
        ensures opened { self.new.opened ≡ self.old.opened }
        ensures drawn { self.new.drawn ≡ self.old.drawn + 1 }
        ensures capacity { self.new.capacity ≡ self.old.capacity }
    {
        let found = self.at(conn);
        self.drawn += 1;
        if let Some(row) = found {
            put(&mut self.rows, row.lent(tenure, owner, moment));
        }
    }

    /// Takes a connection back, if it is open.
    pub fn back(&mut self, conn: u32, moment: u64)
        ensures conns { self.new.conns ≡ conn_changed conn (back moment) self.old.conns }
        ensures opened { self.new.opened ≡ self.old.opened }
        ensures drawn { self.new.drawn ≡ self.old.drawn }
        ensures capacity { self.new.capacity ≡ self.old.capacity }
    {
        if let Some(row) = self.at(conn) {
            put(&mut self.rows, row.back(moment));
        }
    }

    /// Begins to close a connection, if it is open.
    pub fn close(&mut self, conn: u32)
        ensures conns { self.new.conns ≡ conn_changed conn closing self.old.conns }
        ensures opened { self.new.opened ≡ self.old.opened }
        ensures drawn { self.new.drawn ≡ self.old.drawn }
        ensures capacity { self.new.capacity ≡ self.old.capacity }
    {
        if let Some(row) = self.at(conn) {
            put(&mut self.rows, row.closing());
        }
    }

    /// Removes a connection from the open ones.
    pub fn remove(&mut self, conn: u32)
        ensures conns { self.new.conns ≡ gone conn self.old.conns }
        ensures opened { self.new.opened ≡ self.old.opened }
        ensures drawn { self.new.drawn ≡ self.old.drawn }
        ensures capacity { self.new.capacity ≡ self.old.capacity }
    {
        remove_from(&mut self.rows, conn);
    }

    /// Turns each opening for the request of this call into one for no request.
    pub fn withdraw(&mut self, call: u32)
        ensures conns { self.new.conns ≡ map (unwanted_by call) self.old.conns }
        ensures opened { self.new.opened ≡ self.old.opened }
        ensures drawn { self.new.drawn ≡ self.old.drawn }
        ensures capacity { self.new.capacity ≡ self.old.capacity }
    {
        withdraw_from(&mut self.rows, call);
    }

    /// Turns every opening into one for no request of its own.
    pub fn withdraw_all(&mut self)
        ensures conns { self.new.conns ≡ map unwanted self.old.conns }
        ensures opened { self.new.opened ≡ self.old.opened }
        ensures drawn { self.new.drawn ≡ self.old.drawn }
        ensures capacity { self.new.capacity ≡ self.old.capacity }
    {
        withdraw_all_from(&mut self.rows);
    }
}

// Puts the connection in the place of the one that has its number.
fn put(rows: &mut Vec<Conn>, conn: Conn)
    ensures rows { rows.new.items ≡ conn_changed conn.number (λ _. conn) rows.old.items }
    ensures capacity { vec_capacity rows.new ≡ vec_capacity rows.old }
{
    match place_of(rows, conn.number) {
        Some(at) => rows[at] = conn,
        None => {}
    }
}

fn withdraw_from(rows: &mut Vec<Conn>, call: u32)
    ensures rows { rows.new.items ≡ map (unwanted_by call) rows.old.items }
    ensures capacity { vec_capacity rows.new ≡ vec_capacity rows.old }
{
    for at in 0..rows.len() {
        rows[at] = rows[at].unwanted_by(call);
    }
}

fn withdraw_all_from(rows: &mut Vec<Conn>)
    ensures rows { rows.new.items ≡ map unwanted rows.old.items }
    ensures capacity { vec_capacity rows.new ≡ vec_capacity rows.old }
{
    for at in 0..rows.len() {
        rows[at] = rows[at].unwanted();
    }
}

fn remove_from(rows: &mut Vec<Conn>, conn: u32)
    ensures rows { rows.new.items ≡ gone conn rows.old.items }
    ensures capacity { vec_capacity rows.new ≡ vec_capacity rows.old }
{
    rows.retain(|row| row.number != conn);
}

fn row_of(rows: &Vec<Conn>, conn: u32) -> Option<Conn>
    ensures { result ≡ conn_of conn rows.now.items }
{
    match place_of(rows, conn) {
        Some(at) => Some(rows[at]),
        None => None,
    }
}

// Returns the place of a connection among the rows.
fn place_of(rows: &Vec<Conn>, conn: u32) -> Option<usize>
    ensures place { result ≡ position (λ row. row.number == conn) rows.now.items }
    ensures bound { IfSome result (λ at. at < vec_len rows.now) }
{
    rows.iter().position(|row| row.number == conn)
}

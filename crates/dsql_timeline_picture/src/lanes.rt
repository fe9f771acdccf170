//! The lanes of a picture.
ghost use Rattle.std.specs.Prelude.{◌≡◌, ◌≤◌, ◌<◌, ◌+◌, ◌^◌, ◌++◌, ◌==◌, IfOk, IfSome, OnOk, length, vec_len, find, position, flat_map};
ghost use Rattle.std.specs.List.{list_any};
ghost use Rattle.dsql_timeline_picture.specs.Lanes.{opened, entered, conns_of, clients_of, callers_of, lanes_of, height, conn_row, client_row, call_row, row_of};
ghost use Rattle.dsql_timeline_picture.specs.Pictures.{drawn_text, lanes_from, lanes_drawn};

use crate::kinds::conn_of;
use crate::picture::MOST_EVENTS;
use dsql_history::{Event, Move};
use dsql_timeline_page::{Bar, Class, Page};
use std::alloc::{AllocError, Global};
use std::marker::Model;

/// The most clients that a report has.
const CLIENTS: u32 = 64;

/// A call, and the client that made it.
#[derive(Clone, Copy)]
pub(crate) struct Caller {
    pub(crate) call: u32,
    pub(crate) client: u32,
}

/// Returns the connection that an event begins to open.
#[tactic(auto, unfolding(crate::specs::Lanes::opened))]
fn opened(event: &Event) -> Option<u32>
    ensures { result ≡ opened event.now }
{
    match event {
        Event::Pool(Move::OpenStart { conn, .. }) => Some(*conn),
        _ => None,
    }
}

/// Returns the call that an event enters, with its client.
#[tactic(auto, unfolding(crate::specs::Lanes::entered))]
fn entered(event: &Event) -> Option<Caller>
    ensures { result ≡ entered event.now }
{
    match event {
        Event::Entered { client, n, .. } => Some(Caller {
            call: *n,
            client: u32::from(*client),
        }),
        _ => None,
    }
}

/// Returns whether this client made one of the calls.
fn calls(client: u32, callers: &[Caller]) -> bool
    ensures { result ≡ list_any (λ caller. caller.client == client) callers.now }
{
    callers.iter().any(|caller| caller.client == client)
}

/// Returns the connections that are opened, in this order.
fn conns_of(alloc: Global, events: &[Event]) -> Result<Vec<u32>, AllocError>
    ensures items { IfOk result (λ conns. conns.items ≡ conns_of events.now) }
    ensures few { IfOk result (λ conns. vec_len conns ≤ length events.now) }
{
    events.iter().filter_map(opened).collect(alloc)
}

/// Returns the calls that enter, with their clients.
fn callers_of(alloc: Global, events: &[Event]) -> Result<Vec<Caller>, AllocError>
    ensures { IfOk result (λ callers. callers.items ≡ callers_of events.now) }
{
    events.iter().filter_map(entered).collect(alloc)
}

/// Returns the clients of the calls, the smallest first.
fn clients_of(alloc: Global, callers: &[Caller]) -> Result<Vec<u32>, AllocError>
    ensures items { IfOk result (λ clients. clients.items ≡ clients_of callers.now) }
    ensures few { IfOk result (λ clients. vec_len clients ≤ CLIENTS) }
{
    (1..CLIENTS + 1)
        .filter(|client| calls(*client, callers))
        .collect(alloc)
}

/// The lanes of a picture: one for each connection and one for each client. Contracts see which they are, and the
/// calls of the clients.
#[derive(Drop)]
pub(crate) struct Lanes {
    conns: Vec<u32>,
    clients: Vec<u32>,
    callers: Vec<Caller>,
}

impl Model for Lanes {
    ghost use Rattle.std.specs.Prelude.{◌+◌, ◌^◌, ◌<◌, vec_len};
    ghost use Rattle.dsql_timeline_picture.specs.Lanes.{Rows};

    ghost Value = { Rows };

    ghost view = { λ l. record { conns = l.conns.items; clients = l.clients.items; callers = l.callers.items } };

    ghost invariant = { λ l. vec_len l.conns + vec_len l.clients < 2 ^ 32 };
}

impl Lanes {
    /// Returns the lanes of a report.
    pub(crate) fn of(alloc: Global, events: &[Event]) -> Result<Lanes, AllocError>
        requires { length events.now ≤ MOST_EVENTS }
        ensures { IfOk result (λ lanes. lanes ≡ lanes_of events.now) }
    {
        let conns = conns_of(alloc, events)?;
        let callers = callers_of(alloc, events)?;
        let clients = clients_of(alloc, &callers)?;
        Ok(Lanes {
            conns,
            clients,
            callers,
        })
    }

    /// Returns how many rows the picture has: one for each lane, and one above them.
    pub(crate) fn height(&self) -> usize
        ensures { result ≡ height self.now }
    {
        1 + self.conns.len() + self.clients.len()
    }

    fn conn_row(&self, conn: u32) -> usize
        ensures { result ≡ conn_row self.now conn }
    {
        match place_of(&self.conns, conn) {
            Some(place) => 1 + place,
            None => 0,
        }
    }

    fn client_row(&self, client: u32) -> usize
        ensures { result ≡ client_row self.now client }
    {
        match place_of(&self.clients, client) {
            Some(place) => 1 + self.conns.len() + place,
            None => 0,
        }
    }

    /// Returns the row of a call's client. A call that didn't enter has row 0.
    fn call_row(&self, n: u32) -> usize
        ensures { result ≡ call_row self.now n }
    {
        match caller_of(&self.callers, n) {
            Some(caller) => self.client_row(caller.client),
            None => 0,
        }
    }

    /// Returns the row of an event: that of its connection, of its client or of its call's client, or row 0.
    pub(crate) fn row_of(&self, event: &Event) -> usize
        ensures { result ≡ row_of self.now event.now }
    {
        match event {
            Event::Entered { client, .. } => self.client_row(u32::from(*client)),
            Event::Heard(entry) => self.conn_row(entry.conn),
            Event::Pool(step) => self.conn_row(conn_of(step)),
            Event::Waits(n) => self.call_row(*n),
            Event::Replied { n, .. } => self.call_row(*n),
            _ => 0,
        }
    }

    /// Draws the lanes in a picture with this many columns.
    pub(crate) fn draw(
        &self,
        alloc: Global,
        columns: usize,
        page: &mut Page,
    ) -> Result<(), AllocError>
        ensures { OnOk result (page.new ≡ page.old ++ flat_map drawn_text (lanes_drawn self.now columns)) }
    {
        let first = 1 + self.conns.len();
        draw_lanes(alloc, "connection", &self.conns, columns, 1, page)?;
        draw_lanes(alloc, "client", &self.clients, columns, first, page)
    }
}

/// Returns the place of a number in a list, if it is there.
fn place_of(numbers: &[u32], number: u32) -> Option<usize>
    ensures place { result ≡ position (λ other. other == number) numbers.now }
    ensures bound { IfSome result (λ place. place < length numbers.now) }
{
    numbers.iter().position(|other| *other == number)
}

/// Returns the call of this number with its client, if it entered.
fn caller_of(callers: &[Caller], n: u32) -> Option<Caller>
    ensures { result ≡ find (λ caller. caller.call == n) callers.now }
{
    callers.iter().copied().find(|caller| caller.call == n)
}

/// Draws a lane for each number, one below the other from this row on.
fn draw_lanes(
    alloc: Global,
    name: &str,
    numbers: &[u32],
    columns: usize,
    first: usize,
    page: &mut Page,
) -> Result<(), AllocError>
    requires { first + length numbers.now < 2 ^ 64 }
    ensures { OnOk result (page.new
        ≡ page.old ++ flat_map drawn_text (lanes_from name.now columns first numbers.now)) }
{
    for (place, number) in numbers.iter().enumerate() {
        let label = format!(in alloc; "{name} {number}")?;
        let lane = Bar {
            class: Class::Lane,
            owner: *number,
            column: 0,
            row: first + place,
            columns,
            rows: 1,
        };
        page.draw(&lane, label.as_bytes(), b"")?;
    }
    Ok(())
}

//! Finds open connections by their places.
ghost use Rattle.std.specs.Prelude.{◌≡◌, ◌==◌, find, option_map, Some};
ghost use Rattle.std.specs.Option.{option_map_or};
ghost use Rattle.dsql_laws.specs.history.Readers.Pool.{is_home};
ghost use Rattle.dsql_laws.specs.pool.Places.{conn_of, is_closing, is_for, is_opening};

use dsql_laws::{Conn, Place};

/// Returns the first of the connections that is lent to an owner with this call's number, or is being opened
/// for it.
pub fn home(conns: &[Conn], call: u32) -> Option<Conn>
    ensures { result ≡ find (λ conn. is_home call conn.place) conns.now }
{
    conns.iter().copied().find(|conn| is_home(conn.place, call))
}

/// Returns the first of the connections that is being opened for the call.
pub fn opening_for(conns: &[Conn], call: u32) -> Option<Conn>
    ensures { result ≡ find (λ conn. is_for call conn.place) conns.now }
{
    conns.iter().copied().find(|conn| conn.place.is_for(call))
}

/// Returns the first of the connections that is being closed.
pub fn closing(conns: &[Conn]) -> Option<Conn>
    ensures { result ≡ find (λ conn. is_closing (Some conn.place)) conns.now }
{
    conns.iter().copied().find(|conn| is_closing(conn.place))
}

/// Returns the first of the connections that is being opened.
pub fn opening(conns: &[Conn]) -> Option<Conn>
    ensures { result ≡ find (λ conn. is_opening (Some conn.place)) conns.now }
{
    conns.iter().copied().find(|conn| is_opening(conn.place))
}

/// Returns the connection with this number.
fn of_number(conns: &[Conn], conn: u32) -> Option<Conn>
    ensures { result ≡ conn_of conn conns.now }
{
    conns.iter().copied().find(|it| it.number == conn)
}

/// Returns the number of a connection, if one was found.
pub fn number_of(found: Option<Conn>) -> Option<u32>
    ensures { result ≡ option_map (λ conn. conn.number) found }
{
    match found {
        Some(conn) => Some(conn.number),
        None => None,
    }
}

/// Returns how often a connection was lent to an owner other than the layer. Returns 0 if it isn't among these.
pub fn uses(conns: &[Conn], conn: u32) -> u32
    ensures { result ≡ option_map_or (λ it. it.uses) (conn_of conn conns.now) 0 }
{
    match of_number(conns, conn) {
        Some(it) => it.uses,
        None => 0,
    }
}

fn is_home(place: Place, call: u32) -> bool
    ensures { result ≡ is_home call place }
{
    match place {
        Place::Lent(_, owner) => owner.number() == call,
        _ => place.is_for(call),
    }
}

fn is_closing(place: Place) -> bool
    ensures { result ≡ is_closing (Some place) }
{
    matches!(place, Place::Closing)
}

fn is_opening(place: Place) -> bool
    ensures { result ≡ is_opening (Some place) }
{
    matches!(place, Place::Opening(_))
}

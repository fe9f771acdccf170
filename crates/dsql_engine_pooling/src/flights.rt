ghost use Rattle.std.specs.Prelude.{◌≡◌, ◌==◌, ◌&&◌, ◌+◌, ◌<◌, ◌≤◌, [], OnOk};
ghost use Rattle.std.specs.List.{list_any};
ghost use Rattle.dsql_laws.specs.history.Rules.Flights.{is_in_flight, has_flight, is_taken, with_flight, without_flight};

use dsql_laws::{Flight, Memory};
use std::alloc::Global;
use std::marker::Model;

/// The driver calls that are under way. Contracts see them as a list, oldest first, and see for how many more
/// there is memory.
#[derive(Drop)]
pub struct Flights {
    flights: Vec<Flight>,
}

impl Model for Flights {
    ghost use Rattle.std.specs.Prelude.{◌-◌, vec_len, vec_capacity};
    ghost use Rattle.dsql_engine_pooling.specs.UnderWay.{UnderWay};

    ghost Value = { UnderWay };

    ghost view = { λ f. record { flights = f.flights.items; spare = vec_capacity f.flights - vec_len f.flights } };
}

impl Flights {
    /// Returns a record without driver calls. Takes no memory.
    pub fn new(alloc: Global) -> Flights
        ensures { result.flights ≡ [] }
    {
        Flights {
            flights: Vec::new(alloc),
        }
    }

    /// Takes the memory for this many more driver calls. Fails with `Memory` if there is none.
    pub fn reserve(&mut self, calls: u32) -> Result<(), Memory>
        ensures ok { OnOk result (calls ≤ self.new.spare) }
        ensures flights { self.new.flights ≡ self.old.flights }
        ensures spare { self.old.spare ≤ self.new.spare }
    {
        self.flights.reserve(calls as usize)?;
        Ok(())
    }

    /// Returns true if a driver call of this call is under way.
    pub fn has_call(&self, call: u32) -> bool
        ensures { result ≡ is_in_flight call self.now.flights }
    {
        self.flights.iter().any(|flight| flight.call == call)
    }

    /// Returns true if a driver call is under way on this connection.
    pub fn has_conn(&self, conn: u32) -> bool
        ensures { result ≡ has_flight conn self.now.flights }
    {
        self.flights.iter().any(|flight| flight.conn == conn)
    }

    /// Returns true if a driver call of this call is under way on this connection.
    pub fn has(&self, call: u32, conn: u32) -> bool
        ensures { result ≡ list_any (λ flight. (flight.call == call) && (flight.conn == conn)) self.now.flights }
    {
        self.flights
            .iter()
            .any(|flight| flight.call == call && flight.conn == conn)
    }

    /// Returns true if another call's driver call is under way on this connection.
    pub fn is_taken(&self, call: u32, conn: u32) -> bool
        ensures { result ≡ is_taken call conn self.now.flights }
    {
        self.flights
            .iter()
            .any(|flight| flight.conn == conn && flight.call != call)
    }

    /// Records that a call's driver call begins on a connection, unless the call or the connection has one
    /// under way.
    pub fn begin(&mut self, call: u32, conn: u32)
        requires { 0 < self.old.spare }
        ensures flights { self.new.flights ≡ with_flight call conn self.old.flights }
        ensures spare { self.old.spare ≤ self.new.spare + 1 }
    {
        if !self.has_call(call) && !self.has_conn(conn) {
            self.flights.push_reserved(Flight { call, conn });
        }
    }

    /// Records that the driver has answered a call's driver call.
    pub fn land(&mut self, call: u32)
        ensures flights { self.new.flights ≡ without_flight call self.old.flights }
        ensures spare { self.old.spare ≤ self.new.spare }
    {
        self.flights.retain(|flight| flight.call != call);
    }
}

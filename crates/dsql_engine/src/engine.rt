mod chores;
mod questions;
mod sending;
mod steps;

ghost use Rattle.std.specs.Prelude.{◌≡◌, ◌<◌, ◌∷◌, [], true, false, length, None, IfOk, OnOk, OnErr};
ghost use Rattle.dsql_engine_hearing.specs.history.Legal.{Legal};
ghost use Rattle.dsql_engine_hearing.specs.history.Readers.Calls.{is_busy};
ghost use Rattle.dsql_engine_hearing.specs.history.Readers.Clients.{call_of};
ghost use Rattle.dsql_engine_hearing.specs.history.Readers.Course.{has_ended};
ghost use Rattle.dsql_engine_hearing.specs.history.Rules.Flights.{is_in_flight};
ghost use Rattle.dsql_engine_hearing.specs.history.Rules.House.{is_quiet};
ghost use Rattle.dsql_engine_hearing.specs.history.declared.event.Event.TheVariants.{Run};
ghost use Rattle.dsql_engine_hearing.specs.going.Reaching.{HasGoneOn};
ghost use Rattle.dsql_engine_hearing.specs.laws_steps.Groups.{after_control, after_end, gone_on, most_events};

use crate::control_fault::ControlFault;
use crate::outside::{self, end_run};
use crate::paying::pay;
use dsql_engine_hearing::{Caps, Control, Desk, Flights, Next, NoRoom, Room, go_on};
pub use questions::Spent;
use std::alloc::Global;
use std::marker::Model;
pub use steps::HeardBack;

/// A run of the layer. Contracts see its history (newest event first), how many of its events were trimmed, and
/// the driver calls under way.
#[derive(Drop)]
pub struct Engine {
    alloc: Global,
    desk: Desk,
    /// The driver calls under way that were made for clients' calls.
    flights: Flights,
    /// The connection on which the layer's own driver call is under way, if one is.
    chore: Option<u32>,
}

impl Model for Engine {
    ghost use Rattle.std.specs.Prelude.{◌≡◌, true, false};
    ghost use Rattle.dsql_engine_hearing.specs.journal.Readers.{is_empty};
    ghost use Rattle.dsql_engine_hearing.specs.history.Rules.Settled.{Settled};
    ghost use Rattle.dsql_engine.specs.Core.{Core, HasRoomForEnd};
    ghost use Rattle.dsql_engine_hearing.specs.going.Stepping.{are_of_unfinished};
    ghost use Rattle.dsql_engine_hearing.specs.desk.Desk.{past, trimmed, Stands};

    ghost Value = { Core };

    ghost view = { λ e. record {
      past = past e.desk;
      trimmed = trimmed e.desk;
      flights = e.flights.flights;
      chore = e.chore;
    } };

    ghost invariant = { λ e. Stands e.desk × Settled (past e.desk) × (is_empty (past e.desk) ≡ false)
        × (are_of_unfinished (past e.desk) e.flights.flights ≡ true) × HasRoomForEnd (past e.desk) };
}

#[tactic(auto, using(crate::proofs::Legality::legal_of, crate::proofs::Legality::legal_at_first))]
impl Engine {
    /// Returns an engine whose run has begun, over a driver with these capabilities. Fails with `NoRoom` if
    /// there is no memory.
    pub fn new(alloc: Global, version: u8, caps: Caps) -> Result<Engine, NoRoom>
        requires { version ≡ 1 }
        ensures begun { IfOk result (λ e. e.past ≡ Run version caps ∷ []) }
        ensures free { IfOk result (λ e. (e.flights ≡ []) × (e.chore ≡ None)) }
        ensures kept { IfOk result (λ e. e.trimmed ≡ 0) }
        ensures legal { IfOk result (λ e. Legal e.past) }
    {
        Ok(Engine::begin(Room::new(alloc)?, version, caps))
    }

    /// Returns an engine whose run has begun, over a driver with these capabilities. It takes no memory.
    pub fn begin(room: Room, version: u8, caps: Caps) -> Engine
        requires { version ≡ 1 }
        ensures begun { result.past ≡ Run version caps ∷ [] }
        ensures free { (result.flights ≡ []) × (result.chore ≡ None) }
        ensures kept { result.trimmed ≡ 0 }
        ensures legal { Legal result.past }
    {
        let alloc = room.alloc();
        Engine {
            alloc,
            desk: Desk::start(room, version, caps),
            flights: Flights::new(alloc),
            chore: None,
        }
    }

    /// Lets a client's unfinished call with no driver call under way go on as far as it can by itself.
    pub fn wake(&mut self, client: u8) -> Result<Next, NoRoom>
        requires unfinished { is_busy client self.old.past ≡ true }
        requires parked { is_in_flight (call_of self.old.past client) self.old.flights ≡ false }
        requires room { length self.old.past < most_events }
        ensures group { OnOk result (self.new.past ≡ gone_on (call_of self.old.past client) self.old.past) }
        ensures next { IfOk result (λ next. HasGoneOn self.new.past self.old.flights self.new.flights
            (call_of self.old.past client) next) }
        ensures chore { self.new.chore ≡ self.old.chore }
        ensures trimmed { self.new.trimmed ≡ self.old.trimmed }
        ensures err { OnErr result (self.new ≡ self.old) }
        ensures legal { Legal self.new.past }
    {
        let call = self.desk.call_of(client);
        pay(&mut self.desk, &mut self.flights)?;
        Ok(go_on(&mut self.desk, &mut self.flights, call))
    }

    /// Sets a limit or the present moment. The pool then keeps to it. Time never goes back: a moment before the
    /// present one counts as the present one.
    pub fn control(&mut self, control: Control) -> Result<(), ControlFault>
        requires room { length self.old.past < most_events }
        ensures group { OnOk result (self.new.past ≡ after_control self.old.past control) }
        ensures flights { self.new.flights ≡ self.old.flights }
        ensures chore { self.new.chore ≡ self.old.chore }
        ensures trimmed { self.new.trimmed ≡ self.old.trimmed }
        ensures err { OnErr result (self.new ≡ self.old) }
        ensures legal { Legal self.new.past }
    {
        pay(&mut self.desk, &mut self.flights)?;
        outside::control(&mut self.desk, control);
        Ok(())
    }

    /// Ends the run, which closes the database.
    pub fn end(&mut self) -> Result<(), NoRoom>
        requires quiet { is_quiet self.old.past ≡ true }
        requires running { has_ended self.old.past ≡ false }
        ensures group { OnOk result (self.new.past ≡ after_end self.old.past) }
        ensures flights { self.new.flights ≡ self.old.flights }
        ensures chore { self.new.chore ≡ self.old.chore }
        ensures trimmed { self.new.trimmed ≡ self.old.trimmed }
        ensures err { OnErr result (self.new ≡ self.old) }
        ensures legal { Legal self.new.past }
    {
        pay(&mut self.desk, &mut self.flights)?;
        end_run(&mut self.desk);
        Ok(())
    }

    /// Trims the history: `history` returns none of the events so far.
    pub fn trim(&mut self)
        requires room { length self.old.past < most_events }
        ensures past { self.new.past ≡ self.old.past }
        ensures flights { self.new.flights ≡ self.old.flights }
        ensures chore { self.new.chore ≡ self.old.chore }
        ensures trimmed { self.new.trimmed ≡ length self.new.past }
    {
        self.desk.trim();
    }
}

//! A call enters and goes on as far as it can by itself.
#![tactic(auto)]

mod enter;
mod going;
mod next;
mod permits;
pub mod whole_steps;

pub use dsql_engine_desk::{BareCall, Desk, Leave, NoRoom, Room, Statement, fate_of};
pub use dsql_engine_pooling::Flights;
pub use dsql_follows::Line;
pub use dsql_laws_calls::{
    Aim, Caps, Control, DriverAnswer, DriverCall, Entry, Event, Fate, Fleet, MAX_EVENTS, MOST_OPEN,
    Memory, Op, Owner, Permit, Place, Planned, Reply, Stand, Wire,
};
pub use enter::enter_call;
pub use going::{go_on, go_on_with};
pub use next::{Next, Why};
pub use permits::tx_carried;

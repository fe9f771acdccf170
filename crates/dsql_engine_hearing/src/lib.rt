//! Takes in a driver's answer. The layer gives its connection back if it isn't in use any more, and its call
//! goes on.
#![tactic(auto)]

mod hear;

pub use dsql_engine_going::{
    Aim, BareCall, Caps, Control, Desk, DriverCall, Entry, Event, Fleet, Flights, Leave, Line,
    MAX_EVENTS, MOST_OPEN, Memory, Next, NoRoom, Op, Owner, Permit, Place, Planned, Room, Stand,
    Statement, Why, Wire, enter_call, go_on, tx_carried,
};
pub use hear::{Hearing, hear_answer};

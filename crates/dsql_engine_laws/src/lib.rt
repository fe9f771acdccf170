//! Laws of the layer's own driver calls in lawful histories: they may be made, and they meet no call of a
//! client. Each law is the contract of a function that does nothing.
#![tactic(auto)]

pub mod chores;
pub mod leaves;
pub mod turns;

pub use dsql_engine_hearing::{
    Caps, Control, DriverCall, Event, Fleet, Line, Memory, Permit, Planned, Wire,
};
pub use dsql_wire::Heard;

//! Faults that are planned in place of answers to driver calls, and what wires and fleets report. The log of a wire
//! gives each driver call its number.
#![tactic(auto)]

mod faults;
mod fleet_log;
mod log;
mod plans;
mod roll;
mod wire_log;

pub use fleet_log::FleetLog;
pub use log::Log;
pub use plans::{
    Plan, PlanMade, Refusal, WirePlanMade, connect_refusal, copied, fault_at, plans_for,
};
pub use wire_log::WireLog;

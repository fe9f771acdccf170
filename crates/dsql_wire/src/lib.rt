//! A driver's wire with its judge, or with its whole journal. The layer makes a driver call only if the judge
//! allows it, and each call makes exactly one entry.
#![tactic(auto)]

mod fault;
mod heard;
mod journal;
pub mod laws;
mod opening;
mod permit;
mod request;
mod thin;
mod wire;

pub use fault::WireFault;
pub use heard::Heard;
pub use opening::{Opened, connect, connect_thin};
pub use request::OpenedThin;
pub use thin::{RetiredThin, ThinWire};
pub use wire::{JournaledWire, Retired};

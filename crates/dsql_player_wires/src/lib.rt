//! Keeps the wires of a run's connections: opens them, plans their faults and gives them back to their fleet.
//! Also keeps what each client has at hand: the permit for its call's next driver call, its kept lines, and
//! whether its call is held.
#![tactic(auto)]

mod at_hand;
mod connecting;
pub mod laws;
mod planning;
mod retiring;
mod seats;
pub mod stopping;
mod wires;

pub use connecting::{connect_wire, open_wire};
pub use dsql_engine_exchanged::Leave;
pub use dsql_history::Op;
pub use dsql_wire::{OpenedThin, ThinWire};
pub use planning::plan;
pub use retiring::{retire, retire_all, retire_wire};
pub use seats::{KeptLine, Seats};
pub use wires::{Wires, perform_on};

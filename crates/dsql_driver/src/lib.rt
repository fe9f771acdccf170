//! What the layer asks of the outside: a database's driver, the streams of a script and of a report, the clock and the
//! gate. After Go's package `database/sql/driver`.
//!
//! A fleet opens a connection, the connection answers two driver calls, and the fleet takes it back:
//!
//! ```
//! let mut wire = fleet.connect(1)?;
//! let pinged = wire.call(&DriverCall::Ping);
//! let shut = wire.call(&DriverCall::Shut);
//! fleet.retire(1, wire);
//! Ok(matches!(pinged.answer, DriverAnswer::Done) && matches!(shut.answer, DriverAnswer::Done))
//! ```
#![tactic(auto)]

mod answer;
mod call;
mod caps;
mod clock;
mod kinds;
pub mod laws;
mod memory;
mod stream;
mod wire;

pub use answer::{DriverAnswer, fits};
pub use call::{DriverCall, Input, Level};
pub use caps::Caps;
pub use clock::{Clock, Gate};
pub use memory::{ListClock, OpenGate, SliceSource, VecSink};
pub use stream::{Failed, Sink, Source};
pub use wire::{Answered, Fleet, Planned, Refused, Wire};

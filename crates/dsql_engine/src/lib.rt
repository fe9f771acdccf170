//! The layer's core. It takes one step at a time. A call enters or goes on, an answer is taken in, a limit or the
//! moment is set, or the run ends. The history is legal after each step.
//!
//! Client 1 makes a call, and the layer begins to open a connection for it:
//!
//! ```
//! let mut engine = Engine::new(alloc, 1, fleet.caps())?;
//! let next = engine.enter(1, Op::Ping)?;
//! let is_blocked = matches!(next, Next::Blocked(Why::Opening));
//!
//! // The run began, the call entered, and the pool began to open a connection.
//! Ok(is_blocked && engine.history().len() == 3)
//! ```
#![tactic(auto)]

mod control_fault;
mod engine;
mod outside;
mod paying;
mod permits;

pub use control_fault::ControlFault;
pub use dsql_engine_hearing::{Caps, Control, Entry, Event, Leave, Next, NoRoom, Op, Room, Why};
pub use engine::{Engine, HeardBack, Spent};

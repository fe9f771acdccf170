//! Decides the next driver call on a connection by what was heard there. A call on the database, the begin of a
//! transaction, a call in one, or whoever ended it sends that driver call. Each record keeps only what the next
//! driver call depends on.
#![tactic(auto)]

mod bare;
mod beginning;
mod ending;
mod exchanged;
mod heard;
mod inside;
pub mod laws;
mod leave;
mod line;
mod statement;

pub use bare::BareCall;
pub use beginning::Beginning;
pub use ending::Ending;
pub use exchanged::{Exchanged, Stage};
pub use heard::HeardLine;
pub use inside::Inside;
pub use leave::Leave;
pub use line::Line;
pub use statement::Statement;

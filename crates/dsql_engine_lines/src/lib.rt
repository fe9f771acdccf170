//! Laws of where calls have sent their driver calls, and of which driver calls carry a statement. Each law is
//! the contract of a function that does nothing.
#![tactic(auto)]

pub mod carried;
mod inside;
pub mod kept;
mod lines;
pub mod sent;
mod there;

pub use lines::Lines;
pub use there::HeardThere;

//! Tokens by which calls are cancelled, as a `context.Context` of Go's package `context`. A call of its cancel
//! function cancels a token, and so does a deadline that has passed.
#![tactic(auto)]

mod fault;
pub mod laws;
mod table;
mod token;
mod tokens;

pub use fault::{TokenFault, Unknown};
pub use table::Names;
pub use token::Cause;
pub use tokens::Tokens;

//! Laws of the tenures of calls and transactions on a connection. What is sent there may follow in the journal.
//! A whole tenure leaves the connection quiet, if no answer was Bad and the newest entry isn't a test that
//! failed. Transactions may have been begun there earlier, if all of them have ended. Each law is the contract
//! of a function that does nothing.
#![tactic(auto)]

pub mod begins;
pub mod calls;
pub mod laws;
pub mod tenures;
pub mod worked;
pub mod worked_tenures;

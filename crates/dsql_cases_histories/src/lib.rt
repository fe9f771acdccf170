//! Examples of legal and refused histories, which show what the rules mean. They have calls, waits, limits,
//! moments, pings, rows, transactions and the run's end. The functions do nothing: their contracts are the
//! examples.
#![tactic(auto)]

pub mod closing;
pub mod course;
pub mod damaged;
pub mod ended;
pub mod kept;
pub mod limit;
pub mod pings;
pub mod reports;
pub mod rows;
pub mod steps;
pub mod times;
pub mod tries;
pub mod waiting;

//! Laws of lawful histories: what a server may have carried out isn't sent again, except for queries for one row.
//! They cover statements, begins of transactions and ends of transactions.
#![tactic(auto)]

pub mod laws;
pub mod rows;
pub mod transactions;
pub mod worked;

//! Proves what follows from the work of a call: which driver calls it sends in its tenure, and what may follow in the
//! connection's journal. And what becomes of the rows that it hands out.
#![tactic(auto)]

pub mod laws;

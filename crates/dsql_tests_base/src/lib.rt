//! Tests of what no contract states of values, scans, tokens, streams, the driver in memory, and tables that no
//! run uses.
#![tactic(auto)]

#[cfg(test)]
mod cancel;
#[cfg(test)]
mod edge;
#[cfg(test)]
mod examples;
#[cfg(test)]
mod faults;
#[cfg(test)]
mod journals;
#[cfg(test)]
mod mem;
#[cfg(test)]
mod store;
#[cfg(test)]
mod tables;
#[cfg(test)]
mod values;

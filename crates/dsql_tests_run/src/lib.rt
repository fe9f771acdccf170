//! Tests of whole runs, over a driver that takes its answers from a report, and over streams that fail.
#![tactic(auto)]

#[cfg(test)]
mod driver;
#[cfg(test)]
mod examples;
#[cfg(test)]
mod outcome;
#[cfg(test)]
mod races;
#[cfg(test)]
mod replayed;
#[cfg(test)]
mod runs;

//! Tests of scripts and reports: lines of each kind are read and spelled, and some are refused for a reason.
#![tactic(auto)]

#[cfg(test)]
mod events;
#[cfg(test)]
mod examples;
#[cfg(test)]
mod scripts;

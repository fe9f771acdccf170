//! Races. That of one client has one report. Over the driver in memory many clients race, and their reports differ from
//! run to run, as the threads take turns.

mod at_once;
mod four;
mod meeting;
mod one;

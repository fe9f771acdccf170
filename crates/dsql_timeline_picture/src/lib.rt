//! Draws the picture of a report: a lane for each connection and each client, and a bar for each event.
//!
//! Each event has a column. Its bar begins there, and ends at a later event that ends what it shows. A tenure ends as
//! its connection moves on, and a call ends at its reply.
#![tactic(auto)]

mod bars;
mod kinds;
mod lanes;
mod laws;
mod names;
mod picture;

pub use laws::{
    bars_stay_within_the_picture, each_event_is_drawn_once, each_lane_is_drawn_once, worked_picture,
};
pub use picture::{MOST_EVENTS, draw};

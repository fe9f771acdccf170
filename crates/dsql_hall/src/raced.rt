//! What comes of a race.
use dsql_hall_steps::{Halt, Player};

/// A race that is over: the player with its whole history, and what stopped the race, if anything did.
#[derive(Drop)]
pub struct Raced {
    pub player: Player,
    pub stopped: Result<(), Halt>,
}

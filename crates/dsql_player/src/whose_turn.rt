//! Finds whose turn it is.
ghost use Rattle.std.specs.Prelude.{◌≡◌};
ghost use Rattle.dsql_player.specs.Playing.{IsReady};
ghost use Rattle.dsql_player.specs.Stepping.{IsNext, goes};

use crate::player::Player;

impl Player {
    /// Is true if the client may go on: it is free and has a kept line, or its call isn't held and may move.
    fn goes(&self, client: u8) -> bool
        ensures { result ≡ goes self.now client }
    {
        if self.engine.unfinished(client).is_some() {
            !self.seats.is_held(client) && self.engine.blocked(client).is_none()
        } else {
            self.seats.has_kept(client)
        }
    }

    /// Returns the client with the smallest number that may go on, if one may.
    pub fn next_client(&self) -> Option<u8>
        requires ready { IsReady self.now }
        ensures { IsNext self.now result }
    {
        for client in 0..self.seats.count() {
            if self.goes(client as u8) {
                return Some(client as u8);
            }
        }
        None
    }
}

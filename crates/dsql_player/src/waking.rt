//! Lets a client's call go on by itself.
ghost use Rattle.std.specs.Prelude.{◌≡◌, ◌<◌, true, false, is_some, length, IfOk, OnOk};
ghost use Rattle.dsql_engine_laws.specs.history.Readers.Calls.{is_busy};
ghost use Rattle.dsql_engine_laws.specs.history.Readers.Clients.{call_of};
ghost use Rattle.dsql_engine_laws.specs.history.Rules.Flights.{is_in_flight};
ghost use Rattle.dsql_engine_laws.specs.laws_ends.Over.{may_move};
ghost use Rattle.dsql_player.specs.Acts.{SamePermitsBut};
ghost use Rattle.dsql_player.specs.Keeping.{ActsUnheard, SameCourse};
ghost use Rattle.dsql_engine_laws.specs.follows.Moments.{Moment};
ghost use Rattle.dsql_player.specs.Playing.{IsAt, IsReady};
ghost use Rattle.dsql_player.specs.Stepping.{Wakes};
ghost use Rattle.dsql_player_wires.specs.Seats.{seat};
ghost use Rattle.dsql_engine_laws.specs.laws_steps.Groups.{gone_on, most_events};

use crate::asking::leave_of;
use crate::halt::Halt;
use crate::player::Player;

impl Player {
    /// Lets the client's call, which may move and has no permit yet, go on by itself. Returns `true` if that
    /// shows in the history. If the call's driver call is due, the call only gets a permit for it, which
    /// doesn't show.
    pub fn wake(&mut self, client: u8) -> Result<bool, Halt>
        requires ready { IsReady self.old }
        requires room { length self.old.past < most_events }
        requires busy { is_busy client self.old.past ≡ true }
        requires parked { is_in_flight (call_of self.old.past client) self.old.flights ≡ false }
        requires moves { may_move self.old.past self.old.flights (call_of self.old.past client) ≡ true }
        ensures wakes { IfOk result (λ shows. (m : Moment) → IsAt m self.old
            → Wakes shows m (call_of self.old.past client) self.old self.new) }
        ensures group { OnOk result (self.new.past ≡ gone_on (call_of self.old.past client) self.old.past) }
        ensures leave { IfOk result (λ shows. shows ≡ false → is_some (seat self.new.seats client).permit ≡ true) }
        ensures same { IfOk result (λ shows. shows ≡ false → self.new.past ≡ self.old.past) }
        ensures grows { IfOk result (λ shows. shows ≡ true → length self.old.past < length self.new.past) }
        ensures handed { OnOk result (SamePermitsBut client self.old.seats self.new.seats) }
        ensures course { OnOk result (SameCourse self.old self.new) }
        ensures act { ActsUnheard result self.old self.new }
        ensures trimmed { self.new.trimmed ≡ self.old.trimmed }
    {
        let before = self.engine.history().len();
        let next = self.engine.wake(client)?;
        self.seats.hand(client, leave_of(next));
        Ok(self.engine.history().len() > before)
    }
}

//! What keeps a player ready: clients have permits for exactly the driver calls that are under way. A history
//! is read newest first.
ghost use Rattle.std.specs.Prelude.{◌≡◌, ◌∷◌, [], ℕ, List, true, false, None};
ghost use Rattle.dsql_engine_laws.specs.journal.declared.entry.Entry.{Entry};
ghost use Rattle.dsql_engine_laws.specs.journal.declared.entry.Permit.{Permit};
ghost use Rattle.dsql_engine_laws.specs.driver.declared.caps.Caps.{Caps};
ghost use Rattle.dsql_engine_laws.specs.history.declared.event.Event.TheVariants.{Run};
ghost use Rattle.dsql_engine_laws.specs.history.declared.event.Op.{Op};
ghost use Rattle.dsql_engine_laws.specs.follows.Moments.{just_begun};
ghost use Rattle.dsql_player_wires.specs.Seats.{Seat, empty_seat, seat};
ghost use Rattle.dsql_engine_laws.specs.history.declared.event.Control.{Control};
ghost use Rattle.dsql_engine_laws.specs.history.Readers.Calls.{is_busy, next_call};
ghost use Rattle.dsql_engine_laws.specs.history.Readers.Clients.{call_of};
ghost use Rattle.dsql_engine_laws.specs.history.Rules.Flights.{is_in_flight, without_flight};
ghost use Rattle.dsql_engine_laws.specs.history.Legal.{Legal};
ghost use Rattle.dsql_engine_laws.specs.going.declared.next.Next.{Next};
ghost use Rattle.dsql_engine_laws.specs.going.Reaching.{HasGoneOn};
ghost use Rattle.dsql_engine_laws.specs.laws_steps.Groups.{after_control, after_end, after_enter, after_heard, gone_on};
ghost use Rattle.dsql_engine_laws.specs.Turns.{flies};
ghost use Rattle.dsql_player.specs.Acts.{Hands, SamePermits, begun};
ghost use Rattle.dsql_player.specs.Chores.{IsToMake};
ghost use Rattle.dsql_player.specs.Playing.{IsAt, IsReady, LinesFit, Playing};
ghost use Rattle.dsql_engine_laws.specs.Chores.{MayBeMade};

/// A player stays ready over a limit or a moment and over the run's end. It also stays ready as a call enters, is
/// answered or is woken. The client whose call went on is handed the permit that results, if any, and the others keep
/// what they have.
pub fn a_player_stays_ready()
    ensures control { (before after : Playing) (control : Control) → IsReady before
        → after.past ≡ after_control before.past control → after.flights ≡ before.flights → Legal after.past
        → after.chore ≡ None → SamePermits before.seats after.seats → LinesFit after → IsReady after }
    ensures ended { (before after : Playing) → IsReady before → after.past ≡ after_end before.past
        → after.flights ≡ before.flights → Legal after.past → after.chore ≡ None
        → SamePermits before.seats after.seats → LinesFit after → IsReady after }
    ensures entered { (before after : Playing) (client : ℕ) (op : Op) (next : Next) → IsReady before
        → after.past ≡ after_enter before.past client op
        → HasGoneOn after.past before.flights after.flights (next_call before.past) next → Legal after.past
        → after.chore ≡ None → Hands client next before.seats after.seats → LinesFit after → IsReady after }
    ensures answered { (before after : Playing) (me : ℕ) (e : Entry) (next : Next) → IsReady before
        → is_busy me before.past
        ≡ true → e.call_no ≡ call_of before.past me → flies e.call_no e.conn before.flights ≡ true
        → after.past ≡ after_heard before.past e
        → HasGoneOn after.past (without_flight e.call_no before.flights) after.flights e.call_no next
        → Legal after.past → after.chore ≡ None → Hands me next before.seats after.seats → LinesFit after
        → IsReady after }
    ensures woken { (before after : Playing) (me : ℕ) (next : Next) → IsReady before → is_busy me before.past ≡ true
        → is_in_flight (call_of before.past me) before.flights ≡ false
        → after.past ≡ gone_on (call_of before.past me) before.past
        → HasGoneOn after.past before.flights after.flights (call_of before.past me) next → Legal after.past
        → after.chore ≡ None → Hands me next before.seats after.seats → LinesFit after → IsReady after }
{}

/// A player is ready if its run has begun and its clients have nothing at hand. It is at the moment at which
/// the run has just begun.
pub fn a_player_begins_ready()
    ensures ready { (version : ℕ) (caps : Caps) (seats : List Seat) → Legal (Run version caps ∷ [])
        → ((client : ℕ) → seat seats client ≡ empty_seat) → IsReady (begun version caps seats) }
    ensures at { (version : ℕ) (caps : Caps) (seats : List Seat) → ((client : ℕ) → seat seats client ≡ empty_seat)
        → IsAt (just_begun (Run version caps)) (begun version caps seats) }
{}

/// If one of the layer's own calls is under way, it may be made.
pub fn a_chore_may_be_made()
    ensures { (p : Playing) (permit : Permit) → IsToMake p permit → MayBeMade p.past permit.conn permit }
{}

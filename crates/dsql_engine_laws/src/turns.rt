//! Laws of turns: the call that sent last on a lent connection, if it has no reply yet, has a driver call under
//! way there. A history is read newest first.
ghost use Rattle.std.specs.Prelude.{◌≡◌, ◌≢◌, ◌++◌, ◌∷◌, [], ℕ, true, false, List, Option};
ghost use Rattle.dsql_engine_hearing.specs.driver.declared.caps.Caps.{Caps};
ghost use Rattle.dsql_engine_hearing.specs.journal.declared.entry.Entry.{Entry};
ghost use Rattle.dsql_engine_hearing.specs.journal.declared.entry.Permit.{Permit};
ghost use Rattle.dsql_engine_hearing.specs.history.declared.event.Event.{Event};
ghost use Rattle.dsql_engine_hearing.specs.history.declared.event.Event.TheVariants.{Run};
ghost use Rattle.dsql_engine_hearing.specs.history.declared.event.Op.{Op};
ghost use Rattle.dsql_engine_hearing.specs.history.declared.event.Control.{Control};
ghost use Rattle.dsql_engine_hearing.specs.history.declared.record.Flight.{Flight};
ghost use Rattle.dsql_engine_hearing.specs.history.declared.record.Stand.{Stand};
ghost use Rattle.dsql_engine_hearing.specs.history.Readers.Calls.{next_call};
ghost use Rattle.dsql_engine_hearing.specs.history.Rules.Flights.{is_in_flight, permitted, without_flight};
ghost use Rattle.dsql_engine_hearing.specs.history.Rules.Stands.{stand};
ghost use Rattle.dsql_engine_hearing.specs.history.Legal.{Lawful};
ghost use Rattle.dsql_engine_hearing.specs.going.Reaching.{HasGoneOn};
ghost use Rattle.dsql_engine_hearing.specs.going.declared.next.Next.{Next};
ghost use Rattle.dsql_engine_hearing.specs.going.declared.next.Next.TheVariants.{Send, Blocked, Reply};
ghost use Rattle.dsql_engine_hearing.specs.going.declared.next.Why.{Why};
ghost use Rattle.dsql_engine_hearing.specs.laws_steps.Groups.{after_enter, after_heard, after_control, after_end, gone_on};
ghost use Rattle.dsql_engine_laws.specs.Leaves.{IsLeave};
ghost use Rattle.dsql_engine_laws.specs.Turns.{Flying, flies};

/// A call that goes on to a driver call has leave for it. The driver call is under way, after all others.
pub fn who_goes_on_has_leave()
    ensures leave { (past : List Event) (before after : List Flight) (n : ℕ) (permit : Permit) → Lawful past
        → Flying past after → is_in_flight n before ≡ false → HasGoneOn past before after n (Send permit)
        → IsLeave past permit }
    ensures itself { (past : List Event) (before after : List Flight) (n : ℕ) (permit : Permit) → Lawful past
        → Flying past after → is_in_flight n before ≡ false → HasGoneOn past before after n (Send permit)
        → permit.call_no ≡ n }
    ensures flies { (past : List Event) (before after : List Flight) (n : ℕ) (permit : Permit) → Lawful past
        → Flying past after → is_in_flight n before ≡ false → HasGoneOn past before after n (Send permit)
        → flies n permit.conn after ≡ true }
    ensures last { (past : List Event) (before after : List Flight) (n : ℕ) (permit : Permit) → Lawful past
        → Flying past after → is_in_flight n before ≡ false → HasGoneOn past before after n (Send permit)
        → after ≡ before ++ record { call = n; conn = permit.conn } ∷ [] }
{}

/// A call that is blocked, or has its reply, has nothing new under way.
pub fn who_waits_sends_nothing()
    ensures blocked { (past : List Event) (before after : List Flight) (n : ℕ) (why : Why)
        → HasGoneOn past before after n (Blocked why) → after ≡ before }
    ensures replied { (past : List Event) (before after : List Flight) (n m : ℕ)
        → HasGoneOn past before after n (Reply m)
        → after ≡ before }
{}

/// Nothing is under way as a run begins, and each step of the core keeps the turns:
///
/// - a call enters, or goes on by itself;
/// - an answer to a call or to the layer is heard;
/// - a limit or the moment is set;
/// - the run ends.
pub fn turns_are_kept()
    ensures begun { (version : ℕ) (caps : Caps) → Flying (Run version caps ∷ []) [] }
    ensures entered { (past : List Event) (client : ℕ) (op : Op) (flights : List Flight)
        → Lawful (after_enter past client op)
        → Flying past flights
        → Flying (after_enter past client op)
        (permitted (next_call past) (stand (after_enter past client op) (next_call past)) flights) }
    ensures heard { (past : List Event) (e : Entry) (before after : List Flight) (next : Next)
        → Lawful (after_heard past e)
        → Flying past before → flies e.call_no e.conn before ≡ true
        → HasGoneOn (after_heard past e) (without_flight e.call_no before) after e.call_no next
        → Flying (after_heard past e) after }
    ensures layer { (past : List Event) (e : Entry) (flights : List Flight) → Lawful (after_heard past e)
        → Flying past flights
        → e.call_no ≡ 0 → Flying (after_heard past e) flights }
    ensures control { (past : List Event) (control : Control) (flights : List Flight)
        → Lawful (after_control past control)
        → Flying past flights → Flying (after_control past control) flights }
    ensures ended { (past : List Event) (flights : List Flight) → Lawful (after_end past) → Flying past flights
        → Flying (after_end past) flights }
    ensures woken { (past : List Event) (n : ℕ) (flights : List Flight) → Lawful (gone_on n past) → Flying past flights
        → is_in_flight n flights ≡ false
        → Flying (gone_on n past) (permitted n (stand (gone_on n past) n) flights) }
{}

/// A driver call under way stays so while others begin, and until its own answer is heard.
pub fn what_is_under_way_stays_so()
    ensures begun { (m n c : ℕ) (at : Option Stand) (flights : List Flight) → flies m c flights ≡ true
        → flies m c (permitted n at flights) ≡ true }
    ensures landed { (m n c : ℕ) (flights : List Flight) → m ≢ n → flies m c flights ≡ true
        → flies m c (without_flight n flights) ≡ true }
{}

/// No driver call is under way for a call that enters, and none any more for a call whose driver call has
/// landed.
pub fn who_goes_on_has_none_under_way()
    ensures entered { (past : List Event) (flights : List Flight) → Lawful past → Flying past flights
        → is_in_flight (next_call past) flights ≡ false }
    ensures landed { (n : ℕ) (flights : List Flight) → is_in_flight n (without_flight n flights) ≡ false }
{}

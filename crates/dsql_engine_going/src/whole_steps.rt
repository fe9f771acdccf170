//! Laws of whole steps. A history is read newest first.
ghost use Rattle.std.specs.Prelude.{◌≡◌, ℕ, true, List};
ghost use Rattle.dsql_laws_calls.specs.history.declared.record.Flight.{Flight};
ghost use Rattle.dsql_laws_calls.specs.history.Legal.{Lawful};
ghost use Rattle.dsql_follows.specs.Moments.{Moment};
ghost use Rattle.dsql_follows.specs.Sentences.{is_whole};
ghost use Rattle.dsql_engine_going.specs.declared.next.Next.{Next};
ghost use Rattle.dsql_engine_going.specs.Reaching.{HasGoneOn};

/// The last step is whole if its call has gone on: the call has its reply, is blocked, or has its permit in
/// flight. Each step of the layer is whole too, because the layer has no call of its own that goes on.
pub fn a_call_that_has_gone_on_is_whole()
    ensures call { (m : Moment) (n : ℕ) (before : List Flight) (next : Next) → Lawful m.past → m.stepper ≡ n
        → HasGoneOn m.past before m.flights n next → is_whole m ≡ true }
    ensures layer { (m : Moment) → Lawful m.past → m.stepper ≡ 0 → is_whole m ≡ true }
{}

//! Each act of a player is one step, and each step comes in its turn. A history is read newest first.
ghost use Rattle.std.specs.Prelude.{◌≡◌, ◌≢◌, ℕ, Bool, true, false, None};
ghost use Rattle.dsql_engine_laws.specs.history.declared.event.Control.{Control};
ghost use Rattle.dsql_engine_laws.specs.history.Readers.Calls.{is_busy};
ghost use Rattle.dsql_engine_laws.specs.history.Rules.Flights.{without_flight};
ghost use Rattle.dsql_engine_laws.specs.history.Rules.House.{chore_due};
ghost use Rattle.dsql_engine_laws.specs.history.Legal.{Lawful};
ghost use Rattle.dsql_engine_laws.specs.going.declared.next.Next.{Next};
ghost use Rattle.dsql_engine_laws.specs.follows.Moments.{Moment};
ghost use Rattle.dsql_engine_laws.specs.follows.Turns.{has_run_out, is_turn_of, may_go};
ghost use Rattle.dsql_engine_laws.specs.laws_steps.Steps.{IsAtRest};
ghost use Rattle.dsql_engine_laws.specs.laws_steps.Groups.{after_control, after_end};
ghost use Rattle.dsql_player.specs.Acts.{RunsTo, Woken};
ghost use Rattle.dsql_player.specs.Playing.{HasLinesOf, IsAt, KeepsLines, Playing};
ghost use Rattle.dsql_player.specs.Stepping.{HearsAnswer, InTurn, IsAnswerTo, IsChoreOn, IsEnd, IsEntryOf, IsFirstToGo, IsTold, RunsOut, RunsSoFar, TakesStep, Wakes, goes};

/// Each of these is one step from the player's moment: a limit or a moment, the run's end, an answer, and a woken call.
/// An answer is also one step from a moment at which its driver call isn't under way yet.
pub fn each_act_is_one_step()
    ensures control { (m : Moment) (before after : Playing) (control : Control) → IsAt m before
        → after.past ≡ after_control before.past control → after.flights ≡ before.flights → Lawful after.past
        → KeepsLines before after → TakesStep m before after (IsTold before.past control) }
    ensures ended { (m : Moment) (before after : Playing) → IsAt m before → after.past ≡ after_end before.past
        → after.flights ≡ before.flights → Lawful after.past → KeepsLines before after
        → TakesStep m before after IsEnd }
    ensures answered { (m : Moment) (n : ℕ) (before after : Playing) → HasLinesOf m before → IsAtRest m
        → without_flight n m.flights ≡ without_flight n before.flights → Lawful after.past
        → HearsAnswer n before after → TakesStep m before after (IsAnswerTo n) }
    ensures woken { (shows : Bool) (m : Moment) (n : ℕ) (next : Next) (before after : Playing)
        → (shows ≡ true → after.past ≢ before.past) → (shows ≡ false → after.past ≡ before.past)
        → Woken n next before after → IsAt m before → Wakes shows m n before after }
{}

/// A client that may go on as the player sees it may go on at the moment. If there is no chore, it is the turn
/// of the smallest such client. If there is no such client either, it is nobody's turn.
pub fn whose_turn_it_is()
    ensures may { (m : Moment) (p : Playing) (client : ℕ) → Lawful p.past → IsAt m p → may_go m client ≡ goes p client }
    ensures turn { (m : Moment) (p : Playing) (client : ℕ) → Lawful p.past → IsAt m p → chore_due p.past ≡ None
        → IsFirstToGo p client → is_turn_of m client ≡ true }
    ensures out { (m : Moment) (p : Playing) → Lawful p.past → IsAt m p → chore_due p.past ≡ None
        → ((client : ℕ) → goes p client ≡ false) → has_run_out m ≡ true }
{}

/// A chore comes in its turn, and so does an entry of the client whose turn it is.
pub fn what_comes_in_turn()
    ensures chore { (m : Moment) (p after : Playing) → IsAt m p → TakesStep m p after (IsChoreOn (chore_due p.past))
        → TakesStep m p after (InTurn m) }
    ensures entry { (m : Moment) (p after : Playing) (client : ℕ) → Lawful p.past → IsAt m p
        → is_turn_of m client ≡ true
        → is_busy client p.past ≡ false → TakesStep m p after (IsEntryOf client)
        → TakesStep m p after (InTurn m) }
{}

/// Steps in their turns add up, until nobody may go on or the run has to stop.
pub fn steps_in_turn_add_up()
    ensures none { (m : Moment) (p : Playing) → IsAt m p → RunsTo m p p }
    ensures more { (m : Moment) (old mid new : Playing) → RunsTo m old mid
        → ((now : Moment) → IsAt now mid → TakesStep now mid new (InTurn now)) → RunsTo m old new }
    ensures so_far { (m : Moment) (old new : Playing) → RunsTo m old new → RunsSoFar m old.past new.past }
    ensures out { (m : Moment) (old new : Playing) → RunsTo m old new
        → ((now : Moment) → IsAt now new → has_run_out now ≡ true) → RunsOut m old new }
{}

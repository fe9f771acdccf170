//! Runs in which time passes: two follow their script, the others stray. The functions do nothing: their
//! contracts are the examples.
ghost use Rattle.std.specs.Prelude.{◌≡◌, true};
ghost use Rattle.dsql_history.specs.Computed.{is_legal};
ghost use Rattle.dsql_follows.specs.Sentences.{begins_with_step, sets_at_once, starts_alone, runs_in_turn};
ghost use Rattle.dsql_follows.specs.Follows.{follows, history};
ghost use Rattle.dsql_cases_runs.specs.CallEdits.{once_read, parts_found, strays_at};
ghost use Rattle.dsql_cases_runs.specs.Times.{waited, lived, tells_lower, tells_later, ticks_twice, ticks_early, ticks_late, sets_idle_for_life, closes_later, ticks_in_start};

/// States that these runs follow their scripts and that their histories are legal. A call waits while time
/// passes, and a connection lives too long.
pub fn runs_in_which_time_passes()
    ensures waited { follows waited ≡ true }
    ensures waited_legal { is_legal (history waited) ≡ true }
    ensures waited_found { parts_found waited ≡ waited }
    ensures lived { follows lived ≡ true }
    ensures lived_legal { is_legal (history lived) ≡ true }
    ensures lived_found { parts_found lived ≡ lived }
{}

/// States where these runs stray. A moment or a limit is reported wrongly, or in the part of another line.
pub fn runs_of_times_that_stray()
    ensures tells_lower { strays_at 7 sets_at_once tells_lower ≡ true }
    ensures tells_later { strays_at 4 sets_at_once tells_later ≡ true }
    ensures ticks_twice { strays_at 4 runs_in_turn ticks_twice ≡ true }
    ensures ticks_early { strays_at 3 runs_in_turn ticks_early ≡ true }
    ensures ticks_late { strays_at 4 sets_at_once ticks_late ≡ true }
    ensures sets_idle_for_life { strays_at 1 sets_at_once sets_idle_for_life ≡ true }
    ensures closes_later { strays_at 5 (once_read begins_with_step) closes_later ≡ true }
    ensures ticks_in_start { strays_at 6 starts_alone ticks_in_start ≡ true }
{}

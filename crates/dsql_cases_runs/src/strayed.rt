//! Runs in which transactions are begun and whose parts don't follow their lines. Each is shown with the first
//! part that strays and a sentence that is false of it.
ghost use Rattle.std.specs.Prelude.{◌≡◌, true};
ghost use Rattle.dsql_follows.specs.Sentences.{enters_in_order, starts_alone, steps_once};
ghost use Rattle.dsql_follows.specs.Follows.{ends_in_turn};
ghost use Rattle.dsql_cases_runs.specs.Edits.{once_read, strays_at, strays_at_the_end};
ghost use Rattle.dsql_cases_runs.specs.Strayed.{takes_the_turn, answered_as_it_wakes, passes_the_end, told_a_line_early, enters_a_kept_line_early, asks_the_database, rolls_back_early, shuts_first};

/// States where these runs stray. In a step a call goes on too early or doesn't go on, or a call isn't entered
/// as its line asks.
pub fn parts_that_stray()
    ensures takes_the_turn { strays_at 5 steps_once takes_the_turn ≡ true }
    ensures answered_as_it_wakes { strays_at 10 steps_once answered_as_it_wakes ≡ true }
    ensures passes_the_end { strays_at 5 steps_once passes_the_end ≡ true }
    ensures told_a_line_early { strays_at 4 starts_alone told_a_line_early ≡ true }
    ensures enters_a_kept_line_early { strays_at 5 (once_read enters_in_order) enters_a_kept_line_early ≡ true }
    ensures asks_the_database { strays_at 5 (once_read enters_in_order) asks_the_database ≡ true }
{}

/// States that these runs stray at the script's end: the layer doesn't keep its order there.
pub fn ends_that_stray()
    ensures rolls_back_early { strays_at_the_end ends_in_turn rolls_back_early ≡ true }
    ensures shuts_first { strays_at_the_end ends_in_turn shuts_first ≡ true }
{}

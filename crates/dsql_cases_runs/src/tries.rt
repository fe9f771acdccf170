//! Runs of calls that are tried again: two follow their script, the others stray. The functions do nothing:
//! their contracts are the examples.
ghost use Rattle.std.specs.Prelude.{◌≡◌, true};
ghost use Rattle.dsql_history.specs.Computed.{is_legal};
ghost use Rattle.dsql_follows.specs.Sentences.{makes_whole_steps, runs_out, steps_once, tidies_once};
ghost use Rattle.dsql_follows.specs.Follows.{follows, history};
ghost use Rattle.dsql_cases_runs.specs.CallEdits.{once_read, parts_found, strays_at};
ghost use Rattle.dsql_cases_runs.specs.Tries.{lost_and_asked_again, refused_and_asked_again, asks_a_line_later, stops_before_the_next_try, asks_in_the_step_of_the_layer, passes_the_next_try};

/// States that these runs follow their scripts and that their histories are legal. A call that loses its
/// connection asks again in the same step. A call whose `Connect` was refused asks again at its next step.
pub fn runs_in_which_calls_are_tried_again()
    ensures lost_and_asked_again { follows lost_and_asked_again ≡ true }
    ensures lost_legal { is_legal (history lost_and_asked_again) ≡ true }
    ensures lost_found { parts_found lost_and_asked_again ≡ lost_and_asked_again }
    ensures refused_and_asked_again { follows refused_and_asked_again ≡ true }
    ensures refused_legal { is_legal (history refused_and_asked_again) ≡ true }
    ensures refused_found { parts_found refused_and_asked_again ≡ refused_and_asked_again }
{}

/// States where these runs stray. A try comes in the part of another line, or not at all.
pub fn runs_of_tries_that_stray()
    ensures asks_a_line_later { strays_at 1 (once_read makes_whole_steps) asks_a_line_later ≡ true }
    ensures stops_before_the_next_try { strays_at 1 runs_out stops_before_the_next_try ≡ true }
    ensures asks_in_the_step_of_the_layer { strays_at 2 tidies_once asks_in_the_step_of_the_layer ≡ true }
    ensures passes_the_next_try { strays_at 3 steps_once passes_the_next_try ≡ true }
{}

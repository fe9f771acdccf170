//! Runs whose parts don't follow their lines. Each is shown with the first part that strays and a sentence that
//! is false of it.
ghost use Rattle.std.specs.Prelude.{◌≡◌, true};
ghost use Rattle.dsql_follows.specs.Sentences.{begins_with_step, makes_whole_steps, enters_in_order, enters_at_once, sets_at_once, starts_alone, steps_once, tidies_once, runs_in_turn, runs_out};
ghost use Rattle.dsql_follows.specs.Follows.{ends_in_turn, ends_run_out, ends_the_run, leaves_nothing};
ghost use Rattle.dsql_cases_runs.specs.CallEdits.{once_read, once_at_end, strays_at, strays_at_the_end};
ghost use Rattle.dsql_cases_runs.specs.StrayedCalls.{waits_a_line_later, lends_a_line_later, opens_a_line_early, runs_on_after_a_start, starts_beside_a_call, answers_a_line_later, makes_two_steps, wakes_and_is_answered, passes_an_answer, passes_a_kept_line, passes_a_reply, steps_another, runs_on_after_a_step, steps_out_of_turn, passes_a_chore, makes_two_chores, takes_the_last_chore, tidies_for_a_client, moves_a_held_call, moves_a_kept_start, releases_in_a_line, puts_a_chore_off, lets_a_larger_client_go_first, loses_a_kept_line, swaps_kept_lines, enters_a_kept_line_twice, enters_another_text, enters_a_line_later, enters_nothing, sets_too_late, sets_nothing_at_all, sets_another, sets_in_a_comment, stops_too_early, stops_before_a_chore, passes_over_a_comment, ends_in_a_line};
ghost use Rattle.dsql_cases_runs.specs.StrayedEnds.{lends_at_the_end, leaves_a_call_at_the_end, enters_another_at_the_end, sets_at_the_end, ends_beside_a_call, ends_beside_a_line, enters_before_a_chore, ends_twice, leaves_a_chore, never_ends, leaves_a_held_call, loses_a_line_at_the_end};

/// States where these runs stray. The parts are of cut-off steps, of start lines and of single steps.
pub fn steps_that_stray()
    ensures waits_a_line_later { strays_at 3 (once_read makes_whole_steps) waits_a_line_later ≡ true }
    ensures lends_a_line_later { strays_at 4 (once_read begins_with_step) lends_a_line_later ≡ true }
    ensures opens_a_line_early { strays_at 2 starts_alone opens_a_line_early ≡ true }
    ensures runs_on_after_a_start { strays_at 3 starts_alone runs_on_after_a_start ≡ true }
    ensures starts_beside_a_call { strays_at 4 starts_alone starts_beside_a_call ≡ true }
    ensures answers_a_line_later { strays_at 7 steps_once answers_a_line_later ≡ true }
    ensures makes_two_steps { strays_at 6 steps_once makes_two_steps ≡ true }
    ensures wakes_and_is_answered { strays_at 5 steps_once wakes_and_is_answered ≡ true }
    ensures passes_an_answer { strays_at 6 steps_once passes_an_answer ≡ true }
    ensures passes_a_kept_line { strays_at 10 steps_once passes_a_kept_line ≡ true }
    ensures passes_a_reply { strays_at 7 steps_once passes_a_reply ≡ true }
    ensures steps_another { strays_at 6 steps_once steps_another ≡ true }
    ensures runs_on_after_a_step { strays_at 9 steps_once runs_on_after_a_step ≡ true }
    ensures steps_out_of_turn { strays_at 5 steps_once steps_out_of_turn ≡ true }
    ensures passes_a_chore { strays_at 3 tidies_once passes_a_chore ≡ true }
    ensures makes_two_chores { strays_at 3 tidies_once makes_two_chores ≡ true }
    ensures takes_the_last_chore { strays_at 3 tidies_once takes_the_last_chore ≡ true }
    ensures tidies_for_a_client { strays_at 7 tidies_once tidies_for_a_client ≡ true }
{}

/// States where these runs stray. The parts are of lines that run on, that are kept, and that set a limit.
pub fn lines_that_stray()
    ensures moves_a_held_call { strays_at 3 runs_in_turn moves_a_held_call ≡ true }
    ensures moves_a_kept_start { strays_at 12 runs_in_turn moves_a_kept_start ≡ true }
    ensures releases_in_a_line { strays_at 15 runs_in_turn releases_in_a_line ≡ true }
    ensures puts_a_chore_off { strays_at 8 runs_in_turn puts_a_chore_off ≡ true }
    ensures lets_a_larger_client_go_first { strays_at 9 runs_in_turn lets_a_larger_client_go_first ≡ true }
    ensures loses_a_kept_line { strays_at 9 runs_out loses_a_kept_line ≡ true }
    ensures swaps_kept_lines { strays_at 10 (once_read enters_in_order) swaps_kept_lines ≡ true }
    ensures enters_a_kept_line_twice { strays_at 11 (once_read enters_in_order) enters_a_kept_line_twice ≡ true }
    ensures enters_another_text { strays_at 4 (once_read enters_in_order) enters_another_text ≡ true }
    ensures enters_a_line_later { strays_at 2 enters_at_once enters_a_line_later ≡ true }
    ensures enters_nothing { strays_at 5 enters_at_once enters_nothing ≡ true }
    ensures sets_too_late { strays_at 3 sets_at_once sets_too_late ≡ true }
    ensures sets_nothing_at_all { strays_at 1 sets_at_once sets_nothing_at_all ≡ true }
    ensures sets_another { strays_at 1 sets_at_once sets_another ≡ true }
    ensures sets_in_a_comment { strays_at 1 runs_in_turn sets_in_a_comment ≡ true }
    ensures stops_too_early { strays_at 4 runs_out stops_too_early ≡ true }
    ensures stops_before_a_chore { strays_at 3 runs_out stops_before_a_chore ≡ true }
    ensures passes_over_a_comment { strays_at 9 runs_out passes_over_a_comment ≡ true }
    ensures ends_in_a_line { strays_at 8 runs_in_turn ends_in_a_line ≡ true }
{}

/// States that these runs stray at the script's end.
pub fn ends_that_stray()
    ensures lends_at_the_end { strays_at_the_end (once_at_end begins_with_step) lends_at_the_end ≡ true }
    ensures leaves_a_call_at_the_end { strays_at_the_end (once_at_end makes_whole_steps) leaves_a_call_at_the_end
        ≡ true }
    ensures enters_another_at_the_end { strays_at_the_end (once_at_end enters_in_order) enters_another_at_the_end
        ≡ true }
    ensures sets_at_the_end { strays_at_the_end ends_in_turn sets_at_the_end ≡ true }
    ensures ends_beside_a_call { strays_at_the_end ends_in_turn ends_beside_a_call ≡ true }
    ensures ends_beside_a_line { strays_at_the_end ends_in_turn ends_beside_a_line ≡ true }
    ensures enters_before_a_chore { strays_at_the_end ends_in_turn enters_before_a_chore ≡ true }
    ensures ends_twice { strays_at_the_end ends_in_turn ends_twice ≡ true }
    ensures leaves_a_chore { strays_at_the_end ends_run_out leaves_a_chore ≡ true }
    ensures never_ends { strays_at_the_end ends_the_run never_ends ≡ true }
    ensures leaves_a_held_call { strays_at_the_end leaves_nothing leaves_a_held_call ≡ true }
    ensures loses_a_line_at_the_end { strays_at_the_end leaves_nothing loses_a_line_at_the_end ≡ true }
{}

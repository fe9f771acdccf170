//! Legal and refused histories of two calls on the same rows. Each refused one is shown with the event that may
//! not come and a rule that it breaks. The functions do nothing: their contracts are the examples.
ghost use Rattle.std.specs.Prelude.{◌≡◌, true, reverse};
ghost use Rattle.dsql_history.specs.Computed.{is_legal};
ghost use Rattle.dsql_history.specs.Rules.Line.{keeps_line};
ghost use Rattle.dsql_history.specs.Rules.Moves.{keeps_sets};
ghost use Rattle.dsql_history.specs.Rules.Replies.{keeps_replies};
ghost use Rattle.dsql_cases_histories.specs.Refusals.{is_refused_at};
ghost use Rattle.dsql_cases_histories.specs.Rows.{two_fetches_each_given_a_row, the_second_of_two_fetches_is_answered_first, a_row_that_comes_after_another_has_closed_the_rows, no_row_comes_after_another_has_closed_the_rows, a_failure_comes_after_another_has_closed_the_rows, a_bad_answer_comes_after_another_has_closed_the_rows, a_fetch_that_was_not_sent_is_told_that_the_rows_are_closed, it_is_told_so_while_they_are_being_closed, a_scan_after_a_row_that_came_too_late, a_fetch_that_ends_the_rows_closes_them_and_another_is_told_meanwhile, a_second_close_of_rows_that_are_being_closed};
ghost use Rattle.dsql_cases_histories.specs.DamagedRows.{a_fetch_sends_after_it_was_told, a_fetch_is_sent_after_the_rows_were_closed_by_an_answered_close, two_fetches_and_a_close_after_the_first_answer_the_second_is_not_sent, a_fetch_whose_rows_another_closed_closes_them, the_bad_connection_closes_only_as_the_other_is_told, a_fetch_sends_twice, a_fetch_between_two_calls_of_the_close, another_call_closes_the_rows_that_a_fetch_ended, a_fetch_of_ended_rows_is_told_that_there_was_a_row, a_fetch_is_answered_on_the_connection_of_other_rows, the_layer_closes_rows_that_a_call_ended, a_fetch_sends_again_after_its_reply};

/// States that these histories are legal. Two calls fetch from the same rows, or one fetches from rows that
/// another closes.
pub fn legal_histories_of_shared_rows()
    ensures two_fetches_each_given_a_row { is_legal (reverse two_fetches_each_given_a_row) ≡ true }
    ensures the_second_of_two_fetches_is_answered_first { is_legal
        (reverse the_second_of_two_fetches_is_answered_first) ≡ true }
    ensures a_row_that_comes_after_another_has_closed_the_rows { is_legal
        (reverse a_row_that_comes_after_another_has_closed_the_rows) ≡ true }
    ensures no_row_comes_after_another_has_closed_the_rows { is_legal
        (reverse no_row_comes_after_another_has_closed_the_rows) ≡ true }
    ensures a_failure_comes_after_another_has_closed_the_rows { is_legal
        (reverse a_failure_comes_after_another_has_closed_the_rows) ≡ true }
    ensures a_bad_answer_comes_after_another_has_closed_the_rows { is_legal
        (reverse a_bad_answer_comes_after_another_has_closed_the_rows) ≡ true }
    ensures a_fetch_that_was_not_sent_is_told_that_the_rows_are_closed { is_legal
        (reverse a_fetch_that_was_not_sent_is_told_that_the_rows_are_closed) ≡ true }
    ensures it_is_told_so_while_they_are_being_closed { is_legal
        (reverse it_is_told_so_while_they_are_being_closed) ≡ true }
    ensures a_scan_after_a_row_that_came_too_late { is_legal (reverse a_scan_after_a_row_that_came_too_late) ≡ true }
    ensures a_fetch_that_ends_the_rows_closes_them_and_another_is_told_meanwhile { is_legal
        (reverse a_fetch_that_ends_the_rows_closes_them_and_another_is_told_meanwhile) ≡ true }
    ensures a_second_close_of_rows_that_are_being_closed { is_legal
        (reverse a_second_close_of_rows_that_are_being_closed) ≡ true }
{}

/// States why each of these histories of two calls on the same rows is refused.
pub fn refused_histories_of_shared_rows()
    ensures a_fetch_sends_after_it_was_told { is_refused_at 11 keeps_line a_fetch_sends_after_it_was_told ≡ true }
    ensures a_fetch_is_sent_after_the_rows_were_closed_by_an_answered_close { is_refused_at 13 keeps_sets
        a_fetch_is_sent_after_the_rows_were_closed_by_an_answered_close ≡ true }
    ensures two_fetches_and_a_close_after_the_first_answer_the_second_is_not_sent { is_refused_at 13 keeps_line
        two_fetches_and_a_close_after_the_first_answer_the_second_is_not_sent ≡ true }
    ensures a_fetch_whose_rows_another_closed_closes_them { is_refused_at 11 keeps_line
        a_fetch_whose_rows_another_closed_closes_them ≡ true }
    ensures the_bad_connection_closes_only_as_the_other_is_told { is_refused_at 11 keeps_replies
        the_bad_connection_closes_only_as_the_other_is_told ≡ true }
    ensures a_fetch_sends_twice { is_refused_at 10 keeps_line a_fetch_sends_twice ≡ true }
    ensures a_fetch_between_two_calls_of_the_close { is_refused_at 12 keeps_line
        a_fetch_between_two_calls_of_the_close ≡ true }
    ensures another_call_closes_the_rows_that_a_fetch_ended { is_refused_at 11 keeps_line
        another_call_closes_the_rows_that_a_fetch_ended ≡ true }
    ensures a_fetch_of_ended_rows_is_told_that_there_was_a_row { is_refused_at 10 keeps_replies
        a_fetch_of_ended_rows_is_told_that_there_was_a_row ≡ true }
    ensures a_fetch_is_answered_on_the_connection_of_other_rows { is_refused_at 15 keeps_line
        a_fetch_is_answered_on_the_connection_of_other_rows ≡ true }
    ensures the_layer_closes_rows_that_a_call_ended { is_refused_at 9 keeps_line
        the_layer_closes_rows_that_a_call_ended ≡ true }
    ensures a_fetch_sends_again_after_its_reply { is_refused_at 11 keeps_line a_fetch_sends_again_after_its_reply
        ≡ true }
{}

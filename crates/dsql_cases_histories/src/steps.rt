//! Histories in which a step is cut off or another step comes between. Each is shown with the event that may
//! not come and a rule that it breaks. If the moment isn't settled, it is shown with what is missing there. The
//! functions do nothing: their contracts are the examples.
ghost use Rattle.std.specs.Prelude.{◌≡◌, true};
ghost use Rattle.dsql_history.specs.Rules.Settled.{calls_stand, uses_what_is_lent};
ghost use Rattle.dsql_history.specs.Rules.Replies.{keeps_replies};
ghost use Rattle.dsql_cases_histories.specs.Refusals.{is_refused_at, is_unsettled_after};
ghost use Rattle.dsql_cases_histories.specs.DamagedSteps.{an_exec_gives_back_after_another_was_served, an_exec_replies_after_another_was_served, an_exec_replies_before_it_gives_back, a_bad_connection_closes_after_another_entered, a_query_has_its_cursor_and_no_reply_while_another_is_served, a_fetch_has_its_row_and_no_reply_while_another_is_served, a_fetch_of_ended_rows_is_not_told_and_their_connection_is_gone, a_close_of_ended_rows_is_not_told_and_their_connection_is_idle, a_fetch_of_ended_rows_is_not_told_and_another_has_their_connection, a_connection_comes_back_between_a_call_and_its_lending, a_call_that_asks_is_overtaken_by_another, a_fetch_of_absent_rows_is_not_told_and_their_connection_is_being_opened, a_next_after_the_end_is_not_told, an_exec_replies_before_its_connection_is_tested};

/// States why each of these histories, in which a step is cut off, is refused.
pub fn refused_histories_of_steps()
    ensures an_exec_gives_back_after_another_was_served { is_unsettled_after 6 uses_what_is_lent
        an_exec_gives_back_after_another_was_served ≡ true }
    ensures an_exec_replies_after_another_was_served { is_unsettled_after 7 calls_stand
        an_exec_replies_after_another_was_served ≡ true }
    ensures an_exec_replies_before_it_gives_back { is_refused_at 7 keeps_replies
        an_exec_replies_before_it_gives_back ≡ true }
    ensures a_bad_connection_closes_after_another_entered { is_unsettled_after 6 uses_what_is_lent
        a_bad_connection_closes_after_another_entered ≡ true }
    ensures a_query_has_its_cursor_and_no_reply_while_another_is_served { is_unsettled_after 6 calls_stand
        a_query_has_its_cursor_and_no_reply_while_another_is_served ≡ true }
    ensures a_fetch_has_its_row_and_no_reply_while_another_is_served { is_unsettled_after 9 calls_stand
        a_fetch_has_its_row_and_no_reply_while_another_is_served ≡ true }
    ensures a_fetch_of_ended_rows_is_not_told_and_their_connection_is_gone { is_unsettled_after 14 calls_stand
        a_fetch_of_ended_rows_is_not_told_and_their_connection_is_gone ≡ true }
    ensures a_close_of_ended_rows_is_not_told_and_their_connection_is_idle { is_unsettled_after 12 calls_stand
        a_close_of_ended_rows_is_not_told_and_their_connection_is_idle ≡ true }
    ensures a_fetch_of_ended_rows_is_not_told_and_another_has_their_connection { is_unsettled_after 12 calls_stand
        a_fetch_of_ended_rows_is_not_told_and_another_has_their_connection ≡ true }
    ensures a_connection_comes_back_between_a_call_and_its_lending { is_unsettled_after 6 uses_what_is_lent
        a_connection_comes_back_between_a_call_and_its_lending ≡ true }
    ensures a_call_that_asks_is_overtaken_by_another { is_unsettled_after 2 calls_stand
        a_call_that_asks_is_overtaken_by_another ≡ true }
    ensures a_fetch_of_absent_rows_is_not_told_and_their_connection_is_being_opened { is_unsettled_after 4 calls_stand
        a_fetch_of_absent_rows_is_not_told_and_their_connection_is_being_opened ≡ true }
    ensures a_next_after_the_end_is_not_told { is_unsettled_after 9 calls_stand a_next_after_the_end_is_not_told
        ≡ true }
    ensures an_exec_replies_before_its_connection_is_tested { is_refused_at 7 keeps_replies
        an_exec_replies_before_its_connection_is_tested ≡ true }
{}

//! Histories that are refused.
ghost use Rattle.std.specs.Prelude.{◌≡◌, true};
ghost use Rattle.dsql_history.specs.Rules.Asking.{keeps_asking};
ghost use Rattle.dsql_history.specs.Rules.Causes.{keeps_causes};
ghost use Rattle.dsql_history.specs.Rules.Journals.{keeps_journals};
ghost use Rattle.dsql_history.specs.Rules.Line.{keeps_line};
ghost use Rattle.dsql_history.specs.Rules.Order.{keeps_order};
ghost use Rattle.dsql_history.specs.Rules.Replies.{keeps_replies};
ghost use Rattle.dsql_history.specs.Rules.Moves.{keeps_sets};
ghost use Rattle.dsql_history.specs.Rules.Settled.{calls_stand};
ghost use Rattle.dsql_cases_histories.specs.Refusals.{is_refused_at, is_unsettled_after};
ghost use Rattle.dsql_cases_histories.specs.Damaged.{a_call_on_the_database_sends_in_a_transaction, a_call_of_one_transaction_sends_in_another, one_breaks_into_a_prepared_exec, what_waited_is_sent_after_the_commit, the_layer_rolls_it_back, the_layer_closes_its_rows, a_commit_rolls_back, a_commit_is_sent_twice, a_commit_leaves_rows_open, a_commit_closes_rows_in_another_order, a_commit_breaks_into_a_call, it_loses_its_connection, it_is_lent_on, a_begin_borrows_as_a_call, a_commit_replies_too_soon, it_is_said_to_be_done, a_commit_that_failed_is_told_as_done, a_rollback_is_told_as_a_commit, an_exec_in_it_has_no_number, a_begin_is_asked_for_otherwise, a_call_in_it_tests_its_connection, rows_are_closed_on_a_bad_connection, the_end_of_the_run_commits, the_end_of_the_run_leaves_it, one_asks_in_the_step_of_another, a_ping_gives_back_in_the_step_of_another, a_ping_that_gave_back_lingers, a_close_that_sends_nothing_lingers, a_begin_is_told_later_of_the_close};

/// Each of these histories is refused at this event, by this rule.
pub fn refused_histories_of_transactions()
    ensures a_call_on_the_database_sends_in_a_transaction { is_refused_at 10 keeps_line
        a_call_on_the_database_sends_in_a_transaction ≡ true }
    ensures a_call_of_one_transaction_sends_in_another { is_refused_at 15 keeps_line
        a_call_of_one_transaction_sends_in_another ≡ true }
    ensures one_breaks_into_a_prepared_exec { is_refused_at 11 keeps_line one_breaks_into_a_prepared_exec ≡ true }
    ensures what_waited_is_sent_after_the_commit { is_refused_at 13 keeps_line what_waited_is_sent_after_the_commit
        ≡ true }
    ensures the_layer_rolls_it_back { is_refused_at 8 keeps_line the_layer_rolls_it_back ≡ true }
    ensures the_layer_closes_its_rows { is_refused_at 14 keeps_line the_layer_closes_its_rows ≡ true }
    ensures a_commit_rolls_back { is_refused_at 9 keeps_line a_commit_rolls_back ≡ true }
    ensures a_commit_is_sent_twice { is_refused_at 10 keeps_line a_commit_is_sent_twice ≡ true }
    ensures a_commit_leaves_rows_open { is_refused_at 16 keeps_line a_commit_leaves_rows_open ≡ true }
    ensures a_commit_closes_rows_in_another_order { is_refused_at 15 keeps_line
        a_commit_closes_rows_in_another_order ≡ true }
    ensures a_commit_breaks_into_a_call { is_refused_at 13 keeps_line a_commit_breaks_into_a_call ≡ true }
    ensures it_loses_its_connection { is_refused_at 9 keeps_line it_loses_its_connection ≡ true }
    ensures it_is_lent_on { is_refused_at 9 keeps_sets it_is_lent_on ≡ true }
    ensures a_begin_borrows_as_a_call { is_refused_at 5 keeps_order a_begin_borrows_as_a_call ≡ true }
    ensures a_commit_replies_too_soon { is_refused_at 10 keeps_replies a_commit_replies_too_soon ≡ true }
    ensures it_is_said_to_be_done { is_refused_at 9 keeps_replies it_is_said_to_be_done ≡ true }
    ensures a_commit_that_failed_is_told_as_done { is_refused_at 11 keeps_replies
        a_commit_that_failed_is_told_as_done ≡ true }
    ensures a_rollback_is_told_as_a_commit { is_refused_at 13 keeps_replies a_rollback_is_told_as_a_commit ≡ true }
    ensures an_exec_in_it_has_no_number { is_refused_at 9 keeps_journals an_exec_in_it_has_no_number ≡ true }
    ensures a_begin_is_asked_for_otherwise { is_refused_at 6 keeps_line a_begin_is_asked_for_otherwise ≡ true }
    ensures a_call_in_it_tests_its_connection { is_refused_at 10 keeps_line a_call_in_it_tests_its_connection ≡ true }
    ensures rows_are_closed_on_a_bad_connection { is_refused_at 18 keeps_line rows_are_closed_on_a_bad_connection
        ≡ true }
    ensures the_end_of_the_run_commits { is_refused_at 9 keeps_line the_end_of_the_run_commits ≡ true }
    ensures the_end_of_the_run_leaves_it { is_refused_at 9 keeps_line the_end_of_the_run_leaves_it ≡ true }
    ensures one_asks_in_the_step_of_another { is_refused_at 7 keeps_asking one_asks_in_the_step_of_another ≡ true }
    ensures a_ping_gives_back_in_the_step_of_another { is_refused_at 7 keeps_causes
        a_ping_gives_back_in_the_step_of_another ≡ true }
{}

/// Each of these steps is cut off before a call has replied that has to. At the free moment after this event
/// the call stands nowhere.
pub fn refused_histories_of_steps()
    ensures a_ping_that_gave_back_lingers { is_unsettled_after 6 calls_stand a_ping_that_gave_back_lingers ≡ true }
    ensures a_close_that_sends_nothing_lingers { is_unsettled_after 17 calls_stand a_close_that_sends_nothing_lingers
        ≡ true }
    ensures a_begin_is_told_later_of_the_close { is_unsettled_after 9 calls_stand a_begin_is_told_later_of_the_close
        ≡ true }
{}

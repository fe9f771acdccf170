//! Histories in which callers are kept apart, and damaged ones in which they aren't. Each damaged one is shown with
//! the answer that may not come and a rule that it breaks. The functions do nothing: their contracts are the examples.
ghost use Rattle.std.specs.Prelude.{◌≡◌, true, reverse};
ghost use Rattle.dsql_cases_histories.specs.Damaged.{a_begin_is_asked_for_otherwise, a_call_of_one_transaction_sends_in_another, a_call_on_the_database_sends_in_a_transaction, the_layer_rolls_it_back};
ghost use Rattle.dsql_cases_histories.specs.Ended.{a_close_that_waits_sends_nothing, it_is_tested_as_it_ends, its_rows_are_closed_first, the_end_of_the_run_rolls_back};
ghost use Rattle.dsql_cases_histories.specs.Kept.{a_begin_is_tried_again, a_begin_that_fails_begins_nothing, rows_in_a_transaction, the_database_works_on_beside_it, two_clients_work_in_one_transaction, two_transactions_at_once};
ghost use Rattle.dsql_cases_histories.specs.Refusals.{is_refused_at};
ghost use Rattle.dsql_cases_histories.specs.Rows.{two_fetches_each_given_a_row};
ghost use Rattle.dsql_laws_apart.specs.Apart.{are_apart, begins_as_asked, comes_from_within, has_unfinished_sender, keeps_to_its_own, names_what_was_made, stands_in_its_transaction, tidies_after_the_end, uses_its_connection};
ghost use Rattle.dsql_laws_apart.specs.Worked.{an_exec_on_an_unknown_label_sends, a_commit_of_an_unknown_label_sends, a_fetch_from_unknown_rows_sends, another_call_sends_the_begin, an_exec_in_it_sends_a_begin, a_begin_sends_an_exec, a_rollback_sends_after_a_commit_entered, an_exec_beside_it_has_its_number, an_exec_in_it_sends_after_its_reply, a_call_that_has_not_entered_sends, of_answers};

/// These legal histories keep callers apart. Clients work in one transaction, in two, and beside one. Calls, commits
/// and the layer close rows. In one, calls on a label that no transaction got send nothing.
pub fn legal_histories_of_callers()
    ensures two_clients_work_in_one_transaction { are_apart (reverse two_clients_work_in_one_transaction) ≡ true }
    ensures two_transactions_at_once { are_apart (reverse two_transactions_at_once) ≡ true }
    ensures the_database_works_on_beside_it { are_apart (reverse the_database_works_on_beside_it) ≡ true }
    ensures two_fetches_each_given_a_row { are_apart (reverse two_fetches_each_given_a_row) ≡ true }
    ensures rows_in_a_transaction { are_apart (reverse rows_in_a_transaction) ≡ true }
    ensures its_rows_are_closed_first { are_apart (reverse its_rows_are_closed_first) ≡ true }
    ensures a_close_that_waits_sends_nothing { are_apart (reverse a_close_that_waits_sends_nothing) ≡ true }
    ensures the_end_of_the_run_rolls_back { are_apart (reverse the_end_of_the_run_rolls_back) ≡ true }
    ensures it_is_tested_as_it_ends { are_apart (reverse it_is_tested_as_it_ends) ≡ true }
    ensures a_begin_is_tried_again { are_apart (reverse a_begin_is_tried_again) ≡ true }
    ensures a_begin_that_fails_begins_nothing { are_apart (reverse a_begin_that_fails_begins_nothing) ≡ true }
{}

/// Each of these histories is legal before this answer, which breaks this rule.
pub fn refused_histories_of_callers()
    ensures an_exec_on_an_unknown_label_sends { is_refused_at 9 (of_answers names_what_was_made)
        an_exec_on_an_unknown_label_sends ≡ true }
    ensures a_commit_of_an_unknown_label_sends { is_refused_at 9 (of_answers names_what_was_made)
        a_commit_of_an_unknown_label_sends ≡ true }
    ensures a_fetch_from_unknown_rows_sends { is_refused_at 9 (of_answers names_what_was_made)
        a_fetch_from_unknown_rows_sends ≡ true }
    ensures another_call_sends_the_begin { is_refused_at 8 (of_answers begins_as_asked) another_call_sends_the_begin
        ≡ true }
    ensures an_exec_in_it_sends_a_begin { is_refused_at 9 (of_answers begins_as_asked) an_exec_in_it_sends_a_begin
        ≡ true }
    ensures a_begin_is_asked_for_otherwise { is_refused_at 6 (of_answers begins_as_asked)
        a_begin_is_asked_for_otherwise ≡ true }
    ensures a_begin_sends_an_exec { is_refused_at 7 (of_answers comes_from_within) a_begin_sends_an_exec ≡ true }
    ensures a_rollback_sends_after_a_commit_entered { is_refused_at 10 (of_answers comes_from_within)
        a_rollback_sends_after_a_commit_entered ≡ true }
    ensures an_exec_beside_it_has_its_number { is_refused_at 12 (of_answers (λ before. stands_in_its_transaction))
        an_exec_beside_it_has_its_number ≡ true }
    ensures an_exec_in_it_sends_after_its_reply { is_refused_at 11 (of_answers has_unfinished_sender)
        an_exec_in_it_sends_after_its_reply ≡ true }
    ensures a_call_that_has_not_entered_sends { is_refused_at 8 (of_answers has_unfinished_sender)
        a_call_that_has_not_entered_sends ≡ true }
    ensures a_call_of_one_transaction_sends_in_another { is_refused_at 15 (of_answers uses_its_connection)
        a_call_of_one_transaction_sends_in_another ≡ true }
    ensures a_call_on_the_database_sends_in_a_transaction { is_refused_at 10 (of_answers keeps_to_its_own)
        a_call_on_the_database_sends_in_a_transaction ≡ true }
    ensures the_layer_rolls_it_back { is_refused_at 8 (of_answers tidies_after_the_end) the_layer_rolls_it_back ≡ true }
{}

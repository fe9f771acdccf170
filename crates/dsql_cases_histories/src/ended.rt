//! Transactions that end.
ghost use Rattle.std.specs.Prelude.{◌≡◌, true, reverse};
ghost use Rattle.dsql_history.specs.Computed.{is_legal};
ghost use Rattle.dsql_cases_histories.specs.Ended.{a_commit_waits_for_the_turn, it_is_ended_once, its_rows_are_closed_first, rows_that_come_too_late, a_row_that_comes_too_late, a_close_that_waits_sends_nothing, a_commit_that_fails, the_end_of_the_run_rolls_back, it_is_tested_as_it_ends};

/// A commit, a rollback or the end of the run ends a transaction and its rows, while calls in it are under way
/// or wait.
pub fn legal_ends_of_transactions()
    ensures a_commit_waits_for_the_turn { is_legal (reverse a_commit_waits_for_the_turn) ≡ true }
    ensures it_is_ended_once { is_legal (reverse it_is_ended_once) ≡ true }
    ensures its_rows_are_closed_first { is_legal (reverse its_rows_are_closed_first) ≡ true }
    ensures rows_that_come_too_late { is_legal (reverse rows_that_come_too_late) ≡ true }
    ensures a_row_that_comes_too_late { is_legal (reverse a_row_that_comes_too_late) ≡ true }
    ensures a_close_that_waits_sends_nothing { is_legal (reverse a_close_that_waits_sends_nothing) ≡ true }
    ensures a_commit_that_fails { is_legal (reverse a_commit_that_fails) ≡ true }
    ensures the_end_of_the_run_rolls_back { is_legal (reverse the_end_of_the_run_rolls_back) ≡ true }
    ensures it_is_tested_as_it_ends { is_legal (reverse it_is_tested_as_it_ends) ≡ true }
{}

//! Transactions that go on, and the calls in them.
ghost use Rattle.std.specs.Prelude.{◌≡◌, true, reverse};
ghost use Rattle.dsql_history.specs.Computed.{is_legal};
ghost use Rattle.dsql_cases_histories.specs.Kept.{two_clients_work_in_one_transaction, a_prepared_exec_is_not_broken_into, two_transactions_at_once, the_database_works_on_beside_it, rows_in_a_transaction, a_bad_answer_ends_no_transaction, it_goes_on_after_the_database_is_closed, a_begin_is_tried_again, a_begin_that_fails_begins_nothing, options_are_refused};

/// Clients work in a transaction, or beside it. It lives on after a Bad and after the close of the database. A
/// begin is tried again, fails, or is refused.
pub fn legal_histories_of_transactions()
    ensures two_clients_work_in_one_transaction { is_legal (reverse two_clients_work_in_one_transaction) ≡ true }
    ensures a_prepared_exec_is_not_broken_into { is_legal (reverse a_prepared_exec_is_not_broken_into) ≡ true }
    ensures two_transactions_at_once { is_legal (reverse two_transactions_at_once) ≡ true }
    ensures the_database_works_on_beside_it { is_legal (reverse the_database_works_on_beside_it) ≡ true }
    ensures rows_in_a_transaction { is_legal (reverse rows_in_a_transaction) ≡ true }
    ensures a_bad_answer_ends_no_transaction { is_legal (reverse a_bad_answer_ends_no_transaction) ≡ true }
    ensures it_goes_on_after_the_database_is_closed { is_legal (reverse it_goes_on_after_the_database_is_closed)
        ≡ true }
    ensures a_begin_is_tried_again { is_legal (reverse a_begin_is_tried_again) ≡ true }
    ensures a_begin_that_fails_begins_nothing { is_legal (reverse a_begin_that_fails_begins_nothing) ≡ true }
    ensures options_are_refused { is_legal (reverse options_are_refused) ≡ true }
{}

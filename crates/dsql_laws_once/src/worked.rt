//! What counts in worked histories of calls that read one row. The functions do nothing: their contracts are
//! the examples.
ghost use Rattle.std.specs.Prelude.{◌≡◌, true, reverse};
ghost use Rattle.dsql_laws_calls.specs.history.Computed.{is_legal};
ghost use Rattle.dsql_laws_calls.specs.history.Rules.Asking.{keeps_asking};
ghost use Rattle.dsql_laws_calls.specs.history.Rules.Line.{keeps_line};
ghost use Rattle.dsql_cases_histories.specs.Refusals.{is_refused_at};
ghost use Rattle.dsql_laws_once.specs.Once.{carried_out};
ghost use Rattle.dsql_laws_once.specs.Worked.{count_after, a_row_is_read_on_the_second_one, a_row_is_queried_for_twice_at_once, a_row_is_read_twice, a_row_is_told_as_lost, a_row_is_queried_for_again_in_a_transaction};

/// States what counts if the fetch of a row found the connection bad and the row is queried for on another
/// connection. The first query counts until that fetch. Then only the second counts, although a server may have
/// carried out both.
pub fn a_row_that_is_queried_for_again()
    ensures legal { is_legal (reverse a_row_is_read_on_the_second_one) ≡ true }
    ensures none { count_after 5 1 a_row_is_read_on_the_second_one ≡ 0 }
    ensures first { count_after 6 1 a_row_is_read_on_the_second_one ≡ 1 }
    ensures lost { count_after 7 1 a_row_is_read_on_the_second_one ≡ 0 }
    ensures second { count_after 14 1 a_row_is_read_on_the_second_one ≡ 1 }
    ensures end { count_after 19 1 a_row_is_read_on_the_second_one ≡ 1 }
    ensures both { carried_out (reverse a_row_is_read_on_the_second_one) 1 ≡ 2 }
{}

/// States what counts in a transaction, where the call has one try. Its query goes on counting, and it replies
/// that the connection was bad.
pub fn a_row_that_is_lost_in_a_transaction()
    ensures legal { is_legal (reverse a_row_is_told_as_lost) ≡ true }
    ensures first { count_after 9 2 a_row_is_told_as_lost ≡ 1 }
    ensures end { count_after 11 2 a_row_is_told_as_lost ≡ 1 }
    ensures carried { carried_out (reverse a_row_is_told_as_lost) 2 ≡ 1 }
{}

/// States that damaged histories in which two entries count are refused.
pub fn rows_that_are_queried_for_twice()
    ensures at_once { is_refused_at 7 keeps_line a_row_is_queried_for_twice_at_once ≡ true }
    ensures two_at_once { count_after 7 1 a_row_is_queried_for_twice_at_once ≡ 2 }
    ensures read { is_refused_at 10 keeps_asking a_row_is_read_twice ≡ true }
    ensures two_reads { count_after 15 1 a_row_is_read_twice ≡ 2 }
    ensures within { is_refused_at 11 keeps_line a_row_is_queried_for_again_in_a_transaction ≡ true }
    ensures two_within { count_after 11 2 a_row_is_queried_for_again_in_a_transaction ≡ 2 }
{}

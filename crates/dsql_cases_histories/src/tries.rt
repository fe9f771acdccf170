//! Legal and refused histories of calls that are tried again. The functions do nothing: their contracts are the
//! examples.
ghost use Rattle.std.specs.Prelude.{◌≡◌, true, reverse};
ghost use Rattle.dsql_history.specs.Computed.{is_legal};
ghost use Rattle.dsql_history.specs.Rules.Asking.{keeps_asking};
ghost use Rattle.dsql_history.specs.Rules.Line.{keeps_line};
ghost use Rattle.dsql_history.specs.Rules.Replies.{keeps_replies};
ghost use Rattle.dsql_history.specs.Rules.Settled.{calls_stand};
ghost use Rattle.dsql_cases_histories.specs.Refusals.{is_refused_at, is_unsettled_after};
ghost use Rattle.dsql_cases_histories.specs.Tries.{the_third_try_is_well, the_third_try_is_bad, three_are_refused, the_second_is_refused_for_good, closed_before_the_second_try, closed_before_the_first_one_is_lost, the_third_try_opens, a_row_is_asked_for_again, a_row_is_not_read_twice, a_ping_is_tried_again};
ghost use Rattle.dsql_cases_histories.specs.DamagedTries.{a_fourth_try, the_third_try_takes_an_idle_one, the_next_try_comes_before_the_close, a_text_that_failed_is_sent_again, a_failure_is_tried_again, the_first_bad_one_is_told, a_third_bad_one_is_told_as_the_second, another_enters_before_the_next_try, a_refused_call_gives_up, a_refused_call_asks_a_closed_database};

/// States that these histories are legal. A call is tried again after its first two connections are bad or
/// refused.
pub fn legal_tries()
    ensures the_third_try_is_well { is_legal (reverse the_third_try_is_well) ≡ true }
    ensures the_third_try_is_bad { is_legal (reverse the_third_try_is_bad) ≡ true }
    ensures three_are_refused { is_legal (reverse three_are_refused) ≡ true }
    ensures the_second_is_refused_for_good { is_legal (reverse the_second_is_refused_for_good) ≡ true }
    ensures closed_before_the_second_try { is_legal (reverse closed_before_the_second_try) ≡ true }
    ensures closed_before_the_first_one_is_lost { is_legal (reverse closed_before_the_first_one_is_lost) ≡ true }
    ensures the_third_try_opens { is_legal (reverse the_third_try_opens) ≡ true }
    ensures a_row_is_asked_for_again { is_legal (reverse a_row_is_asked_for_again) ≡ true }
    ensures a_row_is_not_read_twice { is_legal (reverse a_row_is_not_read_twice) ≡ true }
    ensures a_ping_is_tried_again { is_legal (reverse a_ping_is_tried_again) ≡ true }
{}

/// States why each of these histories, with a damaged try, is refused.
pub fn refused_tries()
    ensures a_fourth_try { is_refused_at 22 keeps_asking a_fourth_try ≡ true }
    ensures the_third_try_takes_an_idle_one { is_refused_at 37 keeps_asking the_third_try_takes_an_idle_one ≡ true }
    ensures the_next_try_comes_before_the_close { is_refused_at 7 keeps_asking the_next_try_comes_before_the_close
        ≡ true }
    ensures a_text_that_failed_is_sent_again { is_refused_at 7 keeps_line a_text_that_failed_is_sent_again ≡ true }
    ensures a_failure_is_tried_again { is_refused_at 6 keeps_asking a_failure_is_tried_again ≡ true }
    ensures the_first_bad_one_is_told { is_refused_at 8 keeps_replies the_first_bad_one_is_told ≡ true }
    ensures a_third_bad_one_is_told_as_the_second { is_refused_at 22 keeps_replies
        a_third_bad_one_is_told_as_the_second ≡ true }
    ensures another_enters_before_the_next_try { is_unsettled_after 7 calls_stand another_enters_before_the_next_try
        ≡ true }
    ensures a_refused_call_gives_up { is_refused_at 9 keeps_replies a_refused_call_gives_up ≡ true }
    ensures a_refused_call_asks_a_closed_database { is_refused_at 8 keeps_asking
        a_refused_call_asks_a_closed_database ≡ true }
{}

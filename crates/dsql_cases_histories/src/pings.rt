//! Legal and refused histories of pings. The functions do nothing: their contracts are the examples.
ghost use Rattle.std.specs.Prelude.{◌≡◌, true, reverse};
ghost use Rattle.dsql_history.specs.Computed.{is_legal};
ghost use Rattle.dsql_history.specs.Rules.Asking.{keeps_asking};
ghost use Rattle.dsql_history.specs.Rules.Causes.{keeps_causes};
ghost use Rattle.dsql_history.specs.Rules.Line.{keeps_line};
ghost use Rattle.dsql_history.specs.Rules.Replies.{keeps_replies};
ghost use Rattle.dsql_history.specs.Rules.Settled.{calls_stand};
ghost use Rattle.dsql_cases_histories.specs.Refusals.{is_refused_at, is_unsettled_after};
ghost use Rattle.dsql_cases_histories.specs.Pings.{a_new_connection_is_pinged, a_driver_that_cannot_ping_is_sent_none, a_ping_rests_with_its_connection, a_call_comes_while_a_ping_rests, a_ping_rests_with_an_idle_connection, a_ping_waits_for_one_that_rests, a_test_finds_a_pinged_connection_invalid, a_ping_fails, a_ping_finds_the_connection_bad, a_used_connection_is_reset_and_pinged, a_reset_finds_the_connection_bad, a_ping_gets_no_connection, a_ping_that_waited_is_served, pings_of_a_closed_database, a_close_is_told_first};
ghost use Rattle.dsql_cases_histories.specs.DamagedPings.{a_ping_is_sent_twice, a_connection_is_tested_before_its_ping, a_ping_replies_with_its_connection, a_resting_connection_is_tested, a_resting_ping_is_told_a_failure, a_resting_connection_is_closed, a_used_connection_is_pinged_at_once, a_ping_replies_before_its_answer, a_ping_is_sent_in_vain, a_ping_that_failed_is_told_as_well, a_ping_replies_before_its_connection_is_back, a_ping_replies_a_step_later, a_ping_is_told_a_failure_of_its_own, a_ping_asks_again};

/// States that these histories of pings are legal. The driver can ping or can't, the connection is new or used,
/// and a ping fails or rests.
pub fn legal_histories_of_pings()
    ensures a_new_connection_is_pinged { is_legal (reverse a_new_connection_is_pinged) ≡ true }
    ensures a_driver_that_cannot_ping_is_sent_none { is_legal (reverse a_driver_that_cannot_ping_is_sent_none) ≡ true }
    ensures a_ping_rests_with_its_connection { is_legal (reverse a_ping_rests_with_its_connection) ≡ true }
    ensures a_call_comes_while_a_ping_rests { is_legal (reverse a_call_comes_while_a_ping_rests) ≡ true }
    ensures a_ping_rests_with_an_idle_connection { is_legal (reverse a_ping_rests_with_an_idle_connection) ≡ true }
    ensures a_ping_waits_for_one_that_rests { is_legal (reverse a_ping_waits_for_one_that_rests) ≡ true }
    ensures a_test_finds_a_pinged_connection_invalid { is_legal (reverse a_test_finds_a_pinged_connection_invalid)
        ≡ true }
    ensures a_ping_fails { is_legal (reverse a_ping_fails) ≡ true }
    ensures a_ping_finds_the_connection_bad { is_legal (reverse a_ping_finds_the_connection_bad) ≡ true }
    ensures a_used_connection_is_reset_and_pinged { is_legal (reverse a_used_connection_is_reset_and_pinged) ≡ true }
    ensures a_reset_finds_the_connection_bad { is_legal (reverse a_reset_finds_the_connection_bad) ≡ true }
    ensures a_ping_gets_no_connection { is_legal (reverse a_ping_gets_no_connection) ≡ true }
    ensures a_ping_that_waited_is_served { is_legal (reverse a_ping_that_waited_is_served) ≡ true }
    ensures pings_of_a_closed_database { is_legal (reverse pings_of_a_closed_database) ≡ true }
    ensures a_close_is_told_first { is_legal (reverse a_close_is_told_first) ≡ true }
{}

/// States why each of these histories, damaged at a ping, is refused.
pub fn refused_histories_of_pings()
    ensures a_ping_is_sent_twice { is_refused_at 7 keeps_line a_ping_is_sent_twice ≡ true }
    ensures a_connection_is_tested_before_its_ping { is_refused_at 6 keeps_line
        a_connection_is_tested_before_its_ping ≡ true }
    ensures a_ping_replies_with_its_connection { is_refused_at 6 keeps_replies a_ping_replies_with_its_connection
        ≡ true }
    ensures a_resting_connection_is_tested { is_refused_at 6 keeps_line a_resting_connection_is_tested ≡ true }
    ensures a_resting_ping_is_told_a_failure { is_refused_at 7 keeps_replies a_resting_ping_is_told_a_failure ≡ true }
    ensures a_resting_connection_is_closed { is_refused_at 6 keeps_causes a_resting_connection_is_closed ≡ true }
    ensures a_used_connection_is_pinged_at_once { is_refused_at 12 keeps_line a_used_connection_is_pinged_at_once
        ≡ true }
    ensures a_ping_replies_before_its_answer { is_refused_at 6 keeps_replies a_ping_replies_before_its_answer ≡ true }
    ensures a_ping_is_sent_in_vain { is_refused_at 6 keeps_line a_ping_is_sent_in_vain ≡ true }
    ensures a_ping_that_failed_is_told_as_well { is_refused_at 9 keeps_replies a_ping_that_failed_is_told_as_well
        ≡ true }
    ensures a_ping_replies_before_its_connection_is_back { is_refused_at 7 keeps_replies
        a_ping_replies_before_its_connection_is_back ≡ true }
    ensures a_ping_replies_a_step_later { is_unsettled_after 7 calls_stand a_ping_replies_a_step_later ≡ true }
    ensures a_ping_is_told_a_failure_of_its_own { is_refused_at 8 keeps_replies a_ping_is_told_a_failure_of_its_own
        ≡ true }
    ensures a_ping_asks_again { is_refused_at 8 keeps_asking a_ping_asks_again ≡ true }
{}

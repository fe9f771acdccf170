//! Legal and refused histories in which calls wait and limits are set. The functions do nothing: their
//! contracts are the examples.
ghost use Rattle.std.specs.Prelude.{◌≡◌, true, reverse};
ghost use Rattle.dsql_history.specs.Computed.{is_legal};
ghost use Rattle.dsql_history.specs.Rules.Order.{keeps_order};
ghost use Rattle.dsql_history.specs.Rules.Asking.{keeps_asking};
ghost use Rattle.dsql_history.specs.Rules.Limit.{keeps_limit};
ghost use Rattle.dsql_history.specs.Rules.Settled.{calls_stand, owes_nothing};
ghost use Rattle.dsql_history.specs.Rules.Causes.{keeps_causes};
ghost use Rattle.dsql_history.specs.Rules.Replies.{keeps_replies};
ghost use Rattle.dsql_cases_histories.specs.Refusals.{is_refused_at, is_unsettled_after};
ghost use Rattle.dsql_cases_histories.specs.Waiting.{two_wait_and_are_served_in_order, a_raised_limit_opens_for_those_that_wait, a_lifted_limit_opens_for_both_and_a_refusal_falls_to_the_first, a_refused_one_makes_room_for_another_opening, a_bad_one_makes_room_once_it_is_gone, the_connection_goes_to_one_that_waits_though_none_may_be_idle, a_lowered_limit_closes_what_comes_back_above_it, fewer_idle_ones_the_longest_idle_closes, an_open_limit_lowers_the_idle_limit_for_good, a_call_takes_the_idle_one_that_came_back_last, a_lifted_limit_opens_for_three, the_statistics_count_waits};
ghost use Rattle.dsql_cases_histories.specs.DamagedWaiting.{the_newer_one_is_served_first, the_connection_comes_back_and_nobody_gets_it, the_reply_comes_before_the_lending, a_call_waits_though_one_is_idle, a_call_waits_below_the_limit, one_is_opened_above_the_limit, a_call_neither_asks_nor_waits, a_call_waits_after_another_entered, a_raised_limit_opens_for_nobody, a_raised_limit_opens_for_two, an_opening_names_a_call_that_waits, the_refusal_falls_to_the_one_that_waits, a_bad_one_makes_room_before_it_is_gone, a_call_that_is_told_replies_in_the_middle_of_a_step, a_lowered_limit_keeps_what_comes_back_above_it, fewer_idle_ones_the_newest_closes, fewer_idle_ones_none_closes, the_statistics_count_one_too_few, the_statistics_come_later, a_call_takes_the_longest_idle_one, one_is_opened_for_nobody, a_connection_closes_as_full_though_one_waits, a_connection_above_the_limit_closes_as_full, a_call_waits_twice, a_lifted_limit_opens_for_one_of_two, a_setting_is_followed_by_another};

/// States that these histories are legal. Calls wait and are served in order, while limits are raised, lifted
/// and lowered.
pub fn legal_histories_of_waiting()
    ensures two_wait_and_are_served_in_order { is_legal (reverse two_wait_and_are_served_in_order) ≡ true }
    ensures a_raised_limit_opens_for_those_that_wait { is_legal (reverse a_raised_limit_opens_for_those_that_wait)
        ≡ true }
    ensures a_lifted_limit_opens_for_both_and_a_refusal_falls_to_the_first { is_legal
        (reverse a_lifted_limit_opens_for_both_and_a_refusal_falls_to_the_first) ≡ true }
    ensures a_refused_one_makes_room_for_another_opening { is_legal
        (reverse a_refused_one_makes_room_for_another_opening) ≡ true }
    ensures a_bad_one_makes_room_once_it_is_gone { is_legal (reverse a_bad_one_makes_room_once_it_is_gone) ≡ true }
    ensures the_connection_goes_to_one_that_waits_though_none_may_be_idle { is_legal
        (reverse the_connection_goes_to_one_that_waits_though_none_may_be_idle) ≡ true }
    ensures a_lowered_limit_closes_what_comes_back_above_it { is_legal
        (reverse a_lowered_limit_closes_what_comes_back_above_it) ≡ true }
    ensures fewer_idle_ones_the_longest_idle_closes { is_legal (reverse fewer_idle_ones_the_longest_idle_closes)
        ≡ true }
    ensures an_open_limit_lowers_the_idle_limit_for_good { is_legal
        (reverse an_open_limit_lowers_the_idle_limit_for_good) ≡ true }
    ensures a_call_takes_the_idle_one_that_came_back_last { is_legal
        (reverse a_call_takes_the_idle_one_that_came_back_last) ≡ true }
    ensures a_lifted_limit_opens_for_three { is_legal (reverse a_lifted_limit_opens_for_three) ≡ true }
    ensures the_statistics_count_waits { is_legal (reverse the_statistics_count_waits) ≡ true }
{}

/// States why each of these histories, damaged in a wait or a limit, is refused.
pub fn refused_histories_of_waiting()
    ensures the_newer_one_is_served_first { is_refused_at 16 keeps_order the_newer_one_is_served_first ≡ true }
    ensures the_connection_comes_back_and_nobody_gets_it { is_refused_at 16 keeps_order
        the_connection_comes_back_and_nobody_gets_it ≡ true }
    ensures the_reply_comes_before_the_lending { is_refused_at 16 keeps_order the_reply_comes_before_the_lending
        ≡ true }
    ensures a_call_waits_though_one_is_idle { is_refused_at 11 keeps_asking a_call_waits_though_one_is_idle ≡ true }
    ensures a_call_waits_below_the_limit { is_refused_at 4 keeps_asking a_call_waits_below_the_limit ≡ true }
    ensures one_is_opened_above_the_limit { is_refused_at 10 keeps_limit one_is_opened_above_the_limit ≡ true }
    ensures a_call_neither_asks_nor_waits { is_unsettled_after 9 calls_stand a_call_neither_asks_nor_waits ≡ true }
    ensures a_call_waits_after_another_entered { is_unsettled_after 9 calls_stand a_call_waits_after_another_entered
        ≡ true }
    ensures a_raised_limit_opens_for_nobody { is_unsettled_after 13 owes_nothing a_raised_limit_opens_for_nobody
        ≡ true }
    ensures a_raised_limit_opens_for_two { is_refused_at 15 keeps_limit a_raised_limit_opens_for_two ≡ true }
    ensures an_opening_names_a_call_that_waits { is_refused_at 14 keeps_order an_opening_names_a_call_that_waits
        ≡ true }
    ensures the_refusal_falls_to_the_one_that_waits { is_refused_at 8 keeps_order
        the_refusal_falls_to_the_one_that_waits ≡ true }
    ensures a_bad_one_makes_room_before_it_is_gone { is_refused_at 11 keeps_limit
        a_bad_one_makes_room_before_it_is_gone ≡ true }
    ensures a_call_that_is_told_replies_in_the_middle_of_a_step { is_refused_at 9 keeps_order
        a_call_that_is_told_replies_in_the_middle_of_a_step ≡ true }
    ensures a_lowered_limit_keeps_what_comes_back_above_it { is_refused_at 17 keeps_causes
        a_lowered_limit_keeps_what_comes_back_above_it ≡ true }
    ensures fewer_idle_ones_the_newest_closes { is_refused_at 23 keeps_order fewer_idle_ones_the_newest_closes ≡ true }
    ensures fewer_idle_ones_none_closes { is_unsettled_after 22 owes_nothing fewer_idle_ones_none_closes ≡ true }
    ensures the_statistics_count_one_too_few { is_refused_at 23 keeps_replies the_statistics_count_one_too_few ≡ true }
    ensures the_statistics_come_later { is_unsettled_after 22 calls_stand the_statistics_come_later ≡ true }
    ensures a_call_takes_the_longest_idle_one { is_refused_at 23 keeps_asking a_call_takes_the_longest_idle_one ≡ true }
    ensures one_is_opened_for_nobody { is_refused_at 2 keeps_asking one_is_opened_for_nobody ≡ true }
    ensures a_connection_closes_as_full_though_one_waits { is_refused_at 14 keeps_causes
        a_connection_closes_as_full_though_one_waits ≡ true }
    ensures a_connection_above_the_limit_closes_as_full { is_refused_at 17 keeps_causes
        a_connection_above_the_limit_closes_as_full ≡ true }
    ensures a_call_waits_twice { is_refused_at 13 keeps_asking a_call_waits_twice ≡ true }
    ensures a_lifted_limit_opens_for_one_of_two { is_unsettled_after 14 owes_nothing
        a_lifted_limit_opens_for_one_of_two ≡ true }
    ensures a_setting_is_followed_by_another { is_unsettled_after 22 owes_nothing a_setting_is_followed_by_another
        ≡ true }
{}

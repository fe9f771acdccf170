//! Legal and refused histories in which time passes. The functions do nothing: their contracts are the
//! examples.
ghost use Rattle.std.specs.Prelude.{◌≡◌, true, reverse};
ghost use Rattle.dsql_history.specs.Computed.{is_legal};
ghost use Rattle.dsql_history.specs.Rules.Causes.{keeps_causes};
ghost use Rattle.dsql_history.specs.Rules.Course.{keeps_course};
ghost use Rattle.dsql_history.specs.Rules.Line.{keeps_line};
ghost use Rattle.dsql_history.specs.Rules.Order.{keeps_order};
ghost use Rattle.dsql_history.specs.Rules.Replies.{keeps_replies};
ghost use Rattle.dsql_cases_histories.specs.Refusals.{is_refused_at};
ghost use Rattle.dsql_cases_histories.specs.Times.{an_idle_one_has_lived_too_long, one_has_been_idle_too_long, both_times_are_over_at_once, a_lent_one_has_lived_too_long, a_time_that_is_over_is_set, two_have_been_idle_too_long, no_time_is_over, the_last_moment, a_wait_ends_at_a_later_moment};
ghost use Rattle.dsql_cases_histories.specs.DamagedTimes.{time_goes_back, one_past_its_time_is_kept, one_closes_before_its_time, idle_time_is_told_for_lifetime, a_lent_one_closes_at_a_moment, the_newest_idle_closes_first, a_wait_is_counted_to_another_moment};

/// States that these histories are legal. Connections have lived or been idle for too long, and calls have
/// waited for a while.
pub fn legal_histories_of_times()
    ensures an_idle_one_has_lived_too_long { is_legal (reverse an_idle_one_has_lived_too_long) ≡ true }
    ensures one_has_been_idle_too_long { is_legal (reverse one_has_been_idle_too_long) ≡ true }
    ensures both_times_are_over_at_once { is_legal (reverse both_times_are_over_at_once) ≡ true }
    ensures a_lent_one_has_lived_too_long { is_legal (reverse a_lent_one_has_lived_too_long) ≡ true }
    ensures a_time_that_is_over_is_set { is_legal (reverse a_time_that_is_over_is_set) ≡ true }
    ensures two_have_been_idle_too_long { is_legal (reverse two_have_been_idle_too_long) ≡ true }
    ensures no_time_is_over { is_legal (reverse no_time_is_over) ≡ true }
    ensures the_last_moment { is_legal (reverse the_last_moment) ≡ true }
    ensures a_wait_ends_at_a_later_moment { is_legal (reverse a_wait_ends_at_a_later_moment) ≡ true }
{}

/// States why each of these histories, in which a connection outlives its time or a moment is wrong, is
/// refused.
pub fn refused_histories_of_times()
    ensures time_goes_back { is_refused_at 3 keeps_course time_goes_back ≡ true }
    ensures one_past_its_time_is_kept { is_refused_at 11 keeps_order one_past_its_time_is_kept ≡ true }
    ensures one_closes_before_its_time { is_refused_at 11 keeps_causes one_closes_before_its_time ≡ true }
    ensures idle_time_is_told_for_lifetime { is_refused_at 12 keeps_order idle_time_is_told_for_lifetime ≡ true }
    ensures a_lent_one_closes_at_a_moment { is_refused_at 10 keeps_line a_lent_one_closes_at_a_moment ≡ true }
    ensures the_newest_idle_closes_first { is_refused_at 22 keeps_order the_newest_idle_closes_first ≡ true }
    ensures a_wait_is_counted_to_another_moment { is_refused_at 22 keeps_replies
        a_wait_is_counted_to_another_moment ≡ true }
{}

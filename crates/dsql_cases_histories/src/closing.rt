//! Legal and refused histories in which the database is closed or the run ends. The functions do nothing: their
//! contracts are the examples.
ghost use Rattle.std.specs.Prelude.{◌≡◌, true, reverse};
ghost use Rattle.dsql_history.specs.Computed.{is_legal};
ghost use Rattle.dsql_history.specs.Rules.Order.{keeps_order};
ghost use Rattle.dsql_history.specs.Rules.Replies.{keeps_replies};
ghost use Rattle.dsql_history.specs.Rules.Course.{keeps_course};
ghost use Rattle.dsql_history.specs.Rules.Asking.{keeps_asking};
ghost use Rattle.dsql_history.specs.Rules.Line.{keeps_line};
ghost use Rattle.dsql_cases_histories.specs.Refusals.{is_refused_at};
ghost use Rattle.dsql_cases_histories.specs.Closing.{a_close_refuses_those_that_wait_each_at_its_own_step, a_close_closes_the_idle_ones_the_longest_idle_first, a_close_refuses_the_call_of_an_opening_which_then_closes, a_refused_one_of_a_closed_database_falls_to_nobody, what_is_under_way_goes_on_after_a_close, rows_go_on_after_a_close, the_run_ends_while_one_waits, calls_after_the_end_of_the_run, an_exec_after_a_close_and_the_end};
ghost use Rattle.dsql_cases_histories.specs.DamagedClosing.{a_close_replies_before_it_closes_an_idle_one, an_opening_that_nobody_wants_any_more_is_lent, what_is_under_way_is_refused_after_a_close, the_run_ends_while_one_is_being_opened, the_run_ends_while_a_fetch_is_under_way, after_the_end_an_argument_is_looked_at_first, after_the_end_a_call_waits, a_close_after_the_end_sends_what_the_layer_owes, the_first_close_counts};

/// States that these histories are legal. When the database closes or the run ends, calls wait, connections are
/// being opened or are idle, or rows are open.
pub fn legal_histories_of_closing()
    ensures a_close_refuses_those_that_wait_each_at_its_own_step { is_legal
        (reverse a_close_refuses_those_that_wait_each_at_its_own_step) ≡ true }
    ensures a_close_closes_the_idle_ones_the_longest_idle_first { is_legal
        (reverse a_close_closes_the_idle_ones_the_longest_idle_first) ≡ true }
    ensures a_close_refuses_the_call_of_an_opening_which_then_closes { is_legal
        (reverse a_close_refuses_the_call_of_an_opening_which_then_closes) ≡ true }
    ensures a_refused_one_of_a_closed_database_falls_to_nobody { is_legal
        (reverse a_refused_one_of_a_closed_database_falls_to_nobody) ≡ true }
    ensures what_is_under_way_goes_on_after_a_close { is_legal (reverse what_is_under_way_goes_on_after_a_close)
        ≡ true }
    ensures rows_go_on_after_a_close { is_legal (reverse rows_go_on_after_a_close) ≡ true }
    ensures the_run_ends_while_one_waits { is_legal (reverse the_run_ends_while_one_waits) ≡ true }
    ensures calls_after_the_end_of_the_run { is_legal (reverse calls_after_the_end_of_the_run) ≡ true }
    ensures an_exec_after_a_close_and_the_end { is_legal (reverse an_exec_after_a_close_and_the_end) ≡ true }
{}

/// States why each of these histories, damaged at a close or at the end, is refused.
pub fn refused_histories_of_closing()
    ensures a_close_replies_before_it_closes_an_idle_one { is_refused_at 23 keeps_order
        a_close_replies_before_it_closes_an_idle_one ≡ true }
    ensures an_opening_that_nobody_wants_any_more_is_lent { is_refused_at 7 keeps_order
        an_opening_that_nobody_wants_any_more_is_lent ≡ true }
    ensures what_is_under_way_is_refused_after_a_close { is_refused_at 8 keeps_replies
        what_is_under_way_is_refused_after_a_close ≡ true }
    ensures the_run_ends_while_one_is_being_opened { is_refused_at 4 keeps_course
        the_run_ends_while_one_is_being_opened ≡ true }
    ensures the_run_ends_while_a_fetch_is_under_way { is_refused_at 9 keeps_course
        the_run_ends_while_a_fetch_is_under_way ≡ true }
    ensures after_the_end_an_argument_is_looked_at_first { is_refused_at 10 keeps_replies
        after_the_end_an_argument_is_looked_at_first ≡ true }
    ensures after_the_end_a_call_waits { is_refused_at 11 keeps_asking after_the_end_a_call_waits ≡ true }
    ensures a_close_after_the_end_sends_what_the_layer_owes { is_refused_at 10 keeps_line
        a_close_after_the_end_sends_what_the_layer_owes ≡ true }
    ensures the_first_close_counts { is_refused_at 12 keeps_replies the_first_close_counts ≡ true }
{}

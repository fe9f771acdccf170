//! Histories damaged in their course, in the numbers of calls, or in the life of a connection. Each is shown
//! with the event that may not come and a rule that it breaks. If the moment isn't settled, it is shown with
//! what is missing there. The functions do nothing: their contracts are the examples.
ghost use Rattle.std.specs.Prelude.{◌≡◌, true, false, []};
ghost use Rattle.dsql_history.specs.Computed.{is_legal};
ghost use Rattle.dsql_history.specs.Rules.Course.{keeps_course};
ghost use Rattle.dsql_history.specs.Rules.Numbers.{keeps_numbers};
ghost use Rattle.dsql_history.specs.Rules.Moves.{keeps_sets};
ghost use Rattle.dsql_history.specs.Rules.Asking.{keeps_asking};
ghost use Rattle.dsql_history.specs.Rules.Order.{keeps_order};
ghost use Rattle.dsql_history.specs.Rules.Settled.{owes_nothing};
ghost use Rattle.dsql_history.specs.Rules.Causes.{keeps_causes};
ghost use Rattle.dsql_history.specs.Rules.Line.{keeps_line};
ghost use Rattle.dsql_history.specs.Rules.Journals.{keeps_journals};
ghost use Rattle.dsql_history.specs.Rules.Replies.{keeps_replies};
ghost use Rattle.dsql_cases_histories.specs.Refusals.{is_refused_at, is_unsettled_after};
ghost use Rattle.dsql_cases_histories.specs.DamagedCourse.{has_another_version, begins_without_run, runs_twice, ends_twice, skips_a_call, enters_while_busy, makes_a_label_twice, begins_under_the_label_of_rows, replies_twice, replies_to_no_call, skips_a_connection, lends_in_another_tenure, hears_in_another_tenure, lends_before_the_connect, lends_a_refused_one, leaves_a_connected_one, falls_before_the_connect, goes_unshut, keeps_a_bad_one, gives_back_open_rows, answers_a_fetch_with_a_result, tells_of_too_many, becomes_idle_before_the_connect};

/// States why each of these histories, damaged in its course, is refused.
pub fn refused_courses()
    ensures has_another_version { is_refused_at 1 keeps_course has_another_version ≡ true }
    ensures begins_without_run { is_refused_at 1 keeps_course begins_without_run ≡ true }
    ensures runs_twice { is_refused_at 2 keeps_course runs_twice ≡ true }
    ensures ends_twice { is_refused_at 3 keeps_course ends_twice ≡ true }
    ensures skips_a_call { is_refused_at 2 keeps_numbers skips_a_call ≡ true }
    ensures enters_while_busy { is_refused_at 4 keeps_numbers enters_while_busy ≡ true }
    ensures makes_a_label_twice { is_refused_at 4 keeps_numbers makes_a_label_twice ≡ true }
    ensures begins_under_the_label_of_rows { is_refused_at 4 keeps_numbers begins_under_the_label_of_rows ≡ true }
    ensures replies_twice { is_refused_at 9 keeps_numbers replies_twice ≡ true }
    ensures replies_to_no_call { is_refused_at 2 keeps_numbers replies_to_no_call ≡ true }
    ensures skips_a_connection { is_refused_at 3 keeps_sets skips_a_connection ≡ true }
    ensures lends_in_another_tenure { is_refused_at 23 keeps_sets lends_in_another_tenure ≡ true }
    ensures hears_in_another_tenure { is_refused_at 24 keeps_sets hears_in_another_tenure ≡ true }
    ensures lends_before_the_connect { is_refused_at 4 keeps_asking lends_before_the_connect ≡ true }
    ensures lends_a_refused_one { is_refused_at 5 keeps_order lends_a_refused_one ≡ true }
    ensures leaves_a_connected_one { is_unsettled_after 4 owes_nothing leaves_a_connected_one ≡ true }
    ensures falls_before_the_connect { is_refused_at 4 keeps_causes falls_before_the_connect ≡ true }
    ensures goes_unshut { is_refused_at 8 keeps_causes goes_unshut ≡ true }
    ensures keeps_a_bad_one { is_refused_at 7 keeps_causes keeps_a_bad_one ≡ true }
    ensures gives_back_open_rows { is_refused_at 8 keeps_line gives_back_open_rows ≡ true }
    ensures answers_a_fetch_with_a_result { is_refused_at 9 keeps_journals answers_a_fetch_with_a_result ≡ true }
    ensures tells_of_too_many { is_refused_at 3 keeps_replies tells_of_too_many ≡ true }
    ensures becomes_idle_before_the_connect { is_refused_at 4 keeps_causes becomes_idle_before_the_connect ≡ true }
{}

/// States that a history without any event isn't legal.
pub fn nothing_at_all()
    ensures { is_legal [] ≡ false }
{}

//! Runs whose parts follow their lines. Each of their histories is legal, too.
ghost use Rattle.std.specs.Prelude.{◌≡◌, true};
ghost use Rattle.dsql_history.specs.Computed.{is_legal};
ghost use Rattle.dsql_follows.specs.Follows.{follows, history};
ghost use Rattle.dsql_cases_runs.specs.CallEdits.{parts_found};
ghost use Rattle.dsql_cases_runs.specs.FollowedCalls.{one_exec, rows_hold_the_connection, served_in_order, closed_while_waiting, limit_lowered, waits_until_the_end};
ghost use Rattle.dsql_cases_runs.specs.FollowedSteps.{held_and_kept, stepped_by_hand, stepped_in_the_other_order, shared_rows, answered_after_a_close, two_at_once, released_at_the_end};

/// States that the parts of each of these runs follow their lines.
pub fn runs_that_follow()
    ensures one_exec { follows one_exec ≡ true }
    ensures rows_hold_the_connection { follows rows_hold_the_connection ≡ true }
    ensures served_in_order { follows served_in_order ≡ true }
    ensures held_and_kept { follows held_and_kept ≡ true }
    ensures stepped_by_hand { follows stepped_by_hand ≡ true }
    ensures stepped_in_the_other_order { follows stepped_in_the_other_order ≡ true }
    ensures shared_rows { follows shared_rows ≡ true }
    ensures closed_while_waiting { follows closed_while_waiting ≡ true }
    ensures answered_after_a_close { follows answered_after_a_close ≡ true }
    ensures limit_lowered { follows limit_lowered ≡ true }
    ensures two_at_once { follows two_at_once ≡ true }
    ensures released_at_the_end { follows released_at_the_end ≡ true }
    ensures waits_until_the_end { follows waits_until_the_end ≡ true }
{}

/// States that the histories of these runs are legal.
pub fn their_histories_are_legal()
    ensures one_exec { is_legal (history one_exec) ≡ true }
    ensures rows_hold_the_connection { is_legal (history rows_hold_the_connection) ≡ true }
    ensures served_in_order { is_legal (history served_in_order) ≡ true }
    ensures held_and_kept { is_legal (history held_and_kept) ≡ true }
    ensures stepped_by_hand { is_legal (history stepped_by_hand) ≡ true }
    ensures stepped_in_the_other_order { is_legal (history stepped_in_the_other_order) ≡ true }
    ensures shared_rows { is_legal (history shared_rows) ≡ true }
    ensures closed_while_waiting { is_legal (history closed_while_waiting) ≡ true }
    ensures answered_after_a_close { is_legal (history answered_after_a_close) ≡ true }
    ensures limit_lowered { is_legal (history limit_lowered) ≡ true }
    ensures two_at_once { is_legal (history two_at_once) ≡ true }
    ensures released_at_the_end { is_legal (history released_at_the_end) ≡ true }
    ensures waits_until_the_end { is_legal (history waits_until_the_end) ≡ true }
{}

/// States that the parts of each of these runs are found from its script and its history alone.
pub fn their_parts_are_found()
    ensures one_exec { parts_found one_exec ≡ one_exec }
    ensures rows_hold_the_connection { parts_found rows_hold_the_connection ≡ rows_hold_the_connection }
    ensures served_in_order { parts_found served_in_order ≡ served_in_order }
    ensures held_and_kept { parts_found held_and_kept ≡ held_and_kept }
    ensures stepped_by_hand { parts_found stepped_by_hand ≡ stepped_by_hand }
    ensures stepped_in_the_other_order { parts_found stepped_in_the_other_order ≡ stepped_in_the_other_order }
    ensures shared_rows { parts_found shared_rows ≡ shared_rows }
    ensures closed_while_waiting { parts_found closed_while_waiting ≡ closed_while_waiting }
    ensures answered_after_a_close { parts_found answered_after_a_close ≡ answered_after_a_close }
    ensures limit_lowered { parts_found limit_lowered ≡ limit_lowered }
    ensures two_at_once { parts_found two_at_once ≡ two_at_once }
    ensures released_at_the_end { parts_found released_at_the_end ≡ released_at_the_end }
    ensures waits_until_the_end { parts_found waits_until_the_end ≡ waits_until_the_end }
{}

//! Runs in which transactions are begun and whose parts follow their lines. Each of their histories is legal,
//! too.
ghost use Rattle.std.specs.Prelude.{◌≡◌, true};
ghost use Rattle.dsql_history.specs.Computed.{is_legal};
ghost use Rattle.dsql_follows.specs.Follows.{follows, history};
ghost use Rattle.dsql_cases_runs.specs.Edits.{parts_found};
ghost use Rattle.dsql_cases_runs.specs.Block.{one_block};
ghost use Rattle.dsql_cases_runs.specs.Followed.{commit_waits_for_the_turn, told_beside_a_call, begun_after_another, rolled_back_at_the_end};

/// States that the parts of each of these runs follow their lines.
pub fn runs_that_follow()
    ensures one_block { follows one_block ≡ true }
    ensures commit_waits_for_the_turn { follows commit_waits_for_the_turn ≡ true }
    ensures told_beside_a_call { follows told_beside_a_call ≡ true }
    ensures begun_after_another { follows begun_after_another ≡ true }
    ensures rolled_back_at_the_end { follows rolled_back_at_the_end ≡ true }
{}

/// States that the histories of these runs are legal.
pub fn their_histories_are_legal()
    ensures one_block { is_legal (history one_block) ≡ true }
    ensures commit_waits_for_the_turn { is_legal (history commit_waits_for_the_turn) ≡ true }
    ensures told_beside_a_call { is_legal (history told_beside_a_call) ≡ true }
    ensures begun_after_another { is_legal (history begun_after_another) ≡ true }
    ensures rolled_back_at_the_end { is_legal (history rolled_back_at_the_end) ≡ true }
{}

/// States that the parts of each of these runs are found from its script and its history alone.
pub fn their_parts_are_found()
    ensures one_block { parts_found one_block ≡ one_block }
    ensures commit_waits_for_the_turn { parts_found commit_waits_for_the_turn ≡ commit_waits_for_the_turn }
    ensures told_beside_a_call { parts_found told_beside_a_call ≡ told_beside_a_call }
    ensures begun_after_another { parts_found begun_after_another ≡ begun_after_another }
    ensures rolled_back_at_the_end { parts_found rolled_back_at_the_end ≡ rolled_back_at_the_end }
{}

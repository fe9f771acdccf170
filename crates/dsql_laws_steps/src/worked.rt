//! Worked steps: what one step appends to a history. The functions do nothing: their contracts say what is
//! shown.
ghost use Rattle.std.specs.Prelude.{[], ◌∷◌, codes, false};
ghost use Rattle.dsql_laws.specs.driver.declared.answer.DriverAnswer.TheVariants as answers;
ghost use Rattle.dsql_laws.specs.driver.declared.call.DriverCall.TheVariants as calls;
ghost use Rattle.dsql_laws.specs.driver.declared.call.Level.TheVariants as levels;
ghost use Rattle.dsql_laws.specs.pool.declared.moves.CloseCause.TheVariants as causes;
ghost use Rattle.dsql_laws.specs.tx.declared.end.TxEnd.TheVariants as ends;
ghost use Rattle.dsql_laws.specs.history.declared.reply.DbEnd.TheVariants as db_ends;
ghost use Rattle.dsql_laws.specs.history.declared.event.Event.TheVariants.{Ended, Replied};
ghost use Rattle.dsql_laws.specs.history.declared.reply.Reply.TheVariants as replies;
ghost use Rattle.dsql_cases_histories.specs.Begun.{begun, committed, passed_on, waiting};
ghost use Rattle.dsql_cases_histories.specs.Words.{back, begin, begins, begins_with, beside, close, commits, exec, executes, executes_in, house, lend, lend_tx, one_changed, open_start, run_plain, told_one_changed, within, x, y};
ghost use Rattle.dsql_laws_steps.specs.Worked.{GoesOnTo, StepsTo, awaited_by, commit_waits, committing, committing_to_test, ended, fetched, fetched_beside_a_commit, fetching, lent, lent_once_closed, lent_thrice, lent_to_test, opening, testing};

/// What follows from a begin: a connection is lent to its transaction or opened for it, or the begin is
/// refused.
pub fn worked_begins()
    ensures none_idle { StepsTo (run_plain ∷ []) (begins 1 1 x) (open_start 1 1 ∷ []) }
    ensures opened { StepsTo opening (house 1 1 calls.Connect answers.Done) (lend_tx 1 2 1 ∷ []) }
    ensures refused { StepsTo (run_plain ∷ []) (begins_with 1 1 x)
        (Replied 1 (replies.Isolation levels.Snapshot) ∷ []) }
    ensures one_idle { StepsTo committed (begins 2 3 y) (lend_tx 1 3 3 ∷ []) }
{}

/// What follows from the answer to a Begin: a transaction, another try, or a reply after the connection is
/// back.
pub fn worked_begins_answered()
    ensures done { StepsTo lent (within 1 2 1 1 begin answers.Done) (Replied 1 replies.Ok ∷ []) }
    ensures bad { StepsTo lent (beside 1 2 1 1 begin answers.Bad) (close 1 causes.Bad ∷ open_start 2 1 ∷ []) }
    ensures bad_at_last { StepsTo lent_thrice (beside 3 2 1 1 begin answers.Bad)
        (close 3 causes.Bad ∷ Replied 1 (replies.BadConn 3) ∷ []) }
    ensures failed { StepsTo lent (beside 1 2 1 1 begin (answers.Fail (codes "no")))
        (back 1 ∷ Replied 1 (replies.Driver (codes "no")) ∷ []) }
    ensures bad_once_closed { StepsTo lent_once_closed (beside 1 2 1 1 begin answers.Bad)
        (close 1 causes.Bad ∷ Replied 1 (replies.DbClosed db_ends.Close) ∷ []) }
    ensures failed_to_test { StepsTo lent_to_test (beside 1 2 1 1 begin (answers.Fail (codes "no"))) [] }
{}

/// What follows from an exec in a transaction. It sends as it enters, and the transaction goes on after its
/// answer, which may be Bad.
pub fn worked_execs()
    ensures enters { StepsTo begun (executes_in x 1 2) [] }
    ensures done { StepsTo waiting (within 1 2 1 2 exec one_changed) (Replied 2 told_one_changed ∷ []) }
    ensures bad { StepsTo waiting (within 1 2 1 2 exec answers.Bad) (Replied 2 (replies.BadConn 1) ∷ []) }
{}

/// What follows from a fetch of a transaction's rows that gets no row. The rows are closed before it replies,
/// even if a commit entered meanwhile.
pub fn worked_fetches()
    ensures none { StepsTo fetching (within 1 2 1 4 (calls.Next 1) answers.End) [] }
    ensures closed { StepsTo fetched (within 1 2 1 4 (calls.CloseRows 1) answers.Done)
        (Replied 4 (replies.Truth false) ∷ []) }
    ensures closed_beside_a_commit { StepsTo fetched_beside_a_commit (within 1 2 1 4 (calls.CloseRows 1) answers.Done)
        (Replied 4 (replies.Truth false) ∷ []) }
{}

/// What follows from a commit. It waits for the turn, and a call that waits beside it replies that the
/// transaction is done, in a step of its own. Its connection is back before it replies, is tested first if the
/// driver can test, and is lent to a call that waits.
pub fn worked_commits()
    ensures another_has_the_turn { StepsTo passed_on (commits 3 4 x) [] }
    ensures another_waits { GoesOnTo commit_waits 3 (Replied 3 (replies.TxDone ends.Commit) ∷ []) }
    ensures done { StepsTo committing (within 1 2 1 2 calls.Commit answers.Done) (back 1 ∷ Replied 2 replies.Ok ∷ []) }
    ensures failed { StepsTo committing (within 1 2 1 2 calls.Commit (answers.Fail (codes "no")))
        (back 1 ∷ Replied 2 (replies.Driver (codes "no")) ∷ []) }
    ensures bad { StepsTo committing (within 1 2 1 2 calls.Commit answers.Bad)
        (close 1 causes.Bad ∷ Replied 2 (replies.BadConn 1) ∷ []) }
    ensures done_to_test { StepsTo committing_to_test (within 1 2 1 2 calls.Commit answers.Done) [] }
    ensures tested { StepsTo testing (beside 1 2 1 2 calls.Valid answers.Done) (back 1 ∷ Replied 2 replies.Ok ∷ []) }
    ensures awaited { StepsTo (awaited_by (executes 2 2)) (within 1 2 1 3 calls.Commit answers.Done)
        (back 1 ∷ lend 1 3 2 ∷ Replied 3 replies.Ok ∷ []) }
    ensures awaited_by_a_begin { StepsTo (awaited_by (begins 2 2 y)) (within 1 2 1 3 calls.Commit answers.Done)
        (back 1 ∷ lend_tx 1 3 2 ∷ Replied 3 replies.Ok ∷ []) }
    ensures ended_before { StepsTo committed (commits 2 3 x) (Replied 3 (replies.TxDone ends.Commit) ∷ []) }
{}

/// What follows from the end of the run: a transaction goes on until it is rolled back.
pub fn worked_ends()
    ensures ends { StepsTo begun Ended [] }
    ensures rolled_back { StepsTo ended (within 1 2 1 0 calls.Rollback answers.Done) (close 1 causes.DbClosed ∷ []) }
{}

//! Laws of the table of statements, and worked values. Each law is the contract of a function that does
//! nothing.
ghost use Rattle.dsql_stmt.specs.Laws.{FirstCloseStays, ChangesOneStatement, OneHandleEach, PreparedIsLive, HandsOutTheLive, DropsOneHandle, DropsWhatWasHandedOut, LosesOneConnection};
ghost use Rattle.dsql_stmt.specs.Worked.{WorkedHandles, WorkedCloses};

/// States that the call that closed a statement is the first one that tried to, and never changes afterwards.
#[tactic(auto, using(crate::proofs::Closes::first_close_stays))]
pub fn the_first_close_stays()
    ensures { FirstCloseStays }
{}

/// States that an addition or a close concerns the statement with that number, and no other.
#[tactic(auto, using(crate::proofs::Changes::changes_one_statement))]
pub fn changes_of_one_statement()
    ensures { ChangesOneStatement }
{}

/// States that a statement has at most one live handle on a connection, and that a handle's number there belongs to one
/// statement. Preparing, dropping and losing handles keep this.
#[tactic(auto, using(crate::proofs::OneEach::one_handle_each))]
pub fn one_handle_for_each()
    ensures { OneHandleEach }
{}

/// States that a handle is live after it was prepared, only for that statement and on that connection.
#[tactic(auto, using(crate::proofs::Seen::prepared_is_live))]
pub fn what_is_prepared_is_live()
    ensures { PreparedIsLive }
{}

/// States that a first close hands out exactly the live handles of the statement, and a second one none.
#[tactic(auto, using(crate::proofs::HandedOut::hands_out_the_live))]
pub fn a_close_hands_out_the_live_handles()
    ensures { HandsOutTheLive }
{}

/// States that a dropped handle isn't live any more, and that no other handle is lost by the drop.
#[tactic(auto, using(crate::proofs::Seen::drops_one_handle))]
pub fn a_drop_of_one_handle()
    ensures { DropsOneHandle }
{}

/// States that nothing of a statement is live after each handle that its first close handed out was dropped. No
/// other statement has lost a handle then.
#[tactic(auto, using(crate::proofs::Dropped::drops_what_was_handed_out))]
pub fn nothing_is_live_once_all_was_dropped()
    ensures { DropsWhatWasHandedOut }
{}

/// States that a lost connection takes exactly its handles with it.
#[tactic(auto, using(crate::proofs::Seen::loses_one_connection))]
pub fn a_lost_connection_takes_its_handles()
    ensures { LosesOneConnection }
{}

/// Gives worked handles and closes.
pub fn worked_statements()
    ensures handles { WorkedHandles }
    ensures closes { WorkedCloses }
{}

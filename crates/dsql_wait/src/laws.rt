//! Laws of waiting, and worked queues. Each law is the contract of a function that does nothing.
ghost use Rattle.dsql_wait.specs.Laws.{ServedInOrder, LeavesTheOrder, LeavesOthers, RoomLasts};
ghost use Rattle.dsql_wait.specs.Worked.{WorkedQueues};

/// Requests are served in the order in which they joined.
pub fn served_in_order()
    ensures { ServedInOrder }
{}

/// Whoever leaves, the others wait in the same order. Requests without a token wait on when a token's requests
/// leave.
pub fn the_order_stays()
    ensures call { LeavesTheOrder }
    ensures token { LeavesOthers }
{}

/// Room for some calls is enough for each of them, in whatever order they come.
pub fn room_lasts()
    ensures { RoomLasts }
{}

/// Worked queues: who is served, who waits, and who is left.
pub fn worked_lines()
    ensures { WorkedQueues }
{}

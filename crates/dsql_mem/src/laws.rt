//! Laws of transactions. They hold for stores whose keys ascend, and `Store::vouch` says that each store's keys
//! do.
ghost use Rattle.dsql_mem.specs.Laws.{RollbackRestores};

/// States that a rollback restores at each key what was there when the transaction began.
pub fn a_rollback_restores()
    ensures { RollbackRestores }
{}

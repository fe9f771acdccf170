//! Which permits open a connection.
ghost use Rattle.std.specs.Prelude.{◌↔◌, [], IsTrue};
ghost use Rattle.dsql_tenure_journal.specs.declared.entry.Permit.{Permit};
ghost use Rattle.dsql_wire.specs.Journaled.{MayBeSent};
ghost use Rattle.dsql_wire.specs.Opening.{opens};

/// On an empty journal, exactly a Connect by the House in tenure 1, for no call and in no transaction, may be
/// sent.
pub fn only_a_connect_opens()
    ensures { (permit : Permit) → MayBeSent permit.conn [] permit ↔ IsTrue (opens permit) }
{}

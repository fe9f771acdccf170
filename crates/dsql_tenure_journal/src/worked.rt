//! Worked journals, as examples of the definitions.
ghost use Rattle.dsql_tenure_journal.specs.Accepted.{WholeSamples};
ghost use Rattle.dsql_tenure_journal.specs.RefusedShapes.{RefusedInTenure, RefusedInTransaction};
ghost use Rattle.dsql_tenure_journal.specs.RefusedUses.{RefusedInHandles, RefusedInWhole};

/// Worked journals are whole. Damaged ones are refused, each at the entry that breaks a rule, and by that rule.
pub fn worked_journals()
    ensures whole { WholeSamples }
    ensures tenure { RefusedInTenure }
    ensures transaction { RefusedInTransaction }
    ensures handles { RefusedInHandles }
    ensures order { RefusedInWhole }
{}

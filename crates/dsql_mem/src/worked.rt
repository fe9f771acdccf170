//! Worked calls, as examples of the definitions.
ghost use Rattle.dsql_mem.specs.Worked.{WorkedNumbers, WorkedTexts, WorkedHandles, WorkedQueries, WorkedTransactions};
ghost use Rattle.dsql_mem.specs.WorkedPlans.{WorkedPlans};

/// States how words spell numbers, and that worked calls have the effects that they should have.
pub fn worked_calls()
    ensures numbers { WorkedNumbers }
    ensures texts { WorkedTexts }
    ensures handles { WorkedHandles }
    ensures queries { WorkedQueries }
    ensures transactions { WorkedTransactions }
    ensures plans { WorkedPlans }
{}

ghost use Rattle.dsql_script_show.specs.Worked.{WorkedSummaries};

/// States the summaries of a worked run and of an empty one.
pub fn worked_summaries()
    ensures { WorkedSummaries }
{}

//! Worked races, and damaged ones.
ghost use Rattle.dsql_hall_steps.specs.driver.declared.caps.Caps.{Caps};
ghost use Rattle.dsql_hall.specs.Worked.{WorkedRaces};

/// States which entries are those of a small race, which aren't, and what the lines of a race set and plan.
pub fn worked_races()
    ensures { (caps : Caps) → WorkedRaces caps }
{}

//! What a race is given.
use dsql_hall_bonds::CellName;
use std::marker::Brand;

/// Names one race, and the cell of its bonds. A hall of a race has the name in its type.
pub trait Race: CellName {
    ghost use Rattle.dsql_hall_steps.specs.Terms.{Terms};

    /// What the race is given.
    ghost terms: { Terms };
}

impl Race for Brand {
    ghost use Rattle.dsql_hall_steps.specs.Terms.{no_terms};

    ghost terms = { no_terms };
}

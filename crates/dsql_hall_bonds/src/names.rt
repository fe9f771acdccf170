//! Names that types carry. No value is passed for them, and a caller's proof picks what each of them stands for.
use std::marker::Brand;

/// Names one cell. Keepers and bonds have the name in their types, so those of two cells don't mix. A function over
/// a name is called with `Brand`, and its caller's proof picks the cell.
pub trait CellName: Send + Sync {
    ghost use Rattle.atomic_table.specs.Seated.{TableId};

    ghost cell: { TableId };
}

impl CellName for Brand {
    ghost use Rattle.dsql_hall_bonds.specs.Unpicked.{no_cell};

    ghost cell = { no_cell };
}

/// Names one piece of work, of which only proofs speak. `Keeper::tie` is called with `Brand`, and its caller's proof
/// picks the work.
pub trait WorkName {
    ghost use Rattle.dsql_hall_bonds.specs.Work.{Work};

    ghost work: { Work };
}

impl WorkName for Brand {
    ghost use Rattle.dsql_hall_bonds.specs.Unpicked.{no_work};

    ghost work = { no_work };
}

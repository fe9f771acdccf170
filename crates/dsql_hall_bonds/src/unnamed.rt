//! A cell with its keeper, made before they have a name.
ghost use Rattle.std.specs.Prelude.{◌≡◌, []};

use crate::cell::Cell;
use crate::keeper::Keeper;
use crate::names::CellName;
use crate::rule::Pass;
use atomic_table::Table;
use dsql_history::Memory;
use std::alloc::Global;
use std::marker::{Model, PhantomData};

/// A cell with the pass of its keeper. Which cell it is shows when it is made, so it gets its name after that. The
/// caller passes it to a function over a `CellName`. Contracts see which cell it is.
#[derive(Drop)]
pub struct Unnamed {
    cell: Cell,
    pass: Pass,
}

impl Model for Unnamed {
    ghost use Rattle.std.specs.Prelude.{◌≡◌, []};
    ghost use Rattle.atomic_table.specs.Seated.{TableId, table_id_coded};
    ghost use Rattle.dsql_hall_bonds.specs.Passes.{Keeping};

    ghost Value = { TableId };

    ghost coded = { table_id_coded };

    ghost view = { λ u. u.cell };

    ghost invariant = { λ u. (u.pass.table_id ≡ u.cell) × (u.pass.me.0 ≡ Keeping []) };
}

impl Unnamed {
    /// Returns a cell of which no bond was made. Fails if there is no memory for it.
    pub fn new(alloc: Global) -> Result<Unnamed, Memory> {
        let (table, pass) = Table::of_words(alloc, &[0], &())?;
        Ok(Unnamed {
            cell: Cell { table },
            pass,
        })
    }

    /// Returns the cell and its keeper under a name. No work is out.
    pub fn named<C: CellName>(self) -> (Cell, Keeper<C>)
        requires { self ≡ C.cell }
        ensures cell { result.0 ≡ C.cell }
        ensures none { result.1 ≡ [] }
    {
        let Unnamed { cell, pass } = self;
        (
            cell,
            Keeper {
                pass,
                of: PhantomData,
            },
        )
    }
}

//! The keeper, and the bonds that it makes.
ghost use Rattle.std.specs.Prelude.{◌≡◌, ◌∷◌, Some, None};
ghost use Rattle.dsql_hall_bonds.specs.Work.{find, without};

use crate::cell::Cell;
use crate::names::{CellName, WorkName};
use crate::rule::{MakesBond, Pass, StrikesOff, TakesBack};
use std::marker::{Model, PhantomData};

/// The keeper of a cell's bonds, which lies under the lock. It takes no bytes. Contracts see the work that is out, with
/// the newest first.
#[derive(Drop)]
pub struct Keeper<C: CellName> {
    pub(crate) pass: Pass,
    pub(crate) of: PhantomData<C>,
}

impl<C: CellName> Model for Keeper<C> {
    ghost use Rattle.std.specs.Prelude.{◌≡◌, List};
    ghost use Rattle.dsql_hall_bonds.specs.Work.{Work};
    ghost use Rattle.dsql_hall_bonds.specs.Passes.{Keeping, out_of};

    ghost Value = { List Work };

    ghost view = { λ k. out_of k.pass.me.0 };

    ghost invariant = { λ k. (k.pass.table_id ≡ C.cell) × (k.pass.me.0 ≡ Keeping (out_of k.pass.me.0)) };
}

/// The bond of one piece of work, which a thread takes along when it lets go of the lock. It takes no bytes, and
/// nothing copies it. Contracts see the work.
#[derive(Drop)]
pub struct Bond<C: CellName> {
    pass: Pass,
    of: PhantomData<C>,
}

impl<C: CellName> Model for Bond<C> {
    ghost use Rattle.std.specs.Prelude.{◌≡◌, []};
    ghost use Rattle.dsql_hall_bonds.specs.Work.{Work};
    ghost use Rattle.dsql_hall_bonds.specs.Passes.{Bound, work_of};

    ghost Value = { Work };

    ghost view = { λ b. work_of b.pass.me.0 };

    ghost invariant = { λ b. (b.pass.table_id ≡ C.cell)
        × (b.pass.me.1 ≡ [])
        × (b.pass.me.0 ≡ Bound (work_of b.pass.me.0)) };
}

impl<C: CellName> Keeper<C> {
    /// Returns the bond of this work, which is out from then on. No work of its connection may be out.
    pub fn tie<N: WorkName>(&mut self, cell: &Cell) -> Bond<C>
        requires cell { cell.now ≡ C.cell }
        requires free { find N.work.conn self.old ≡ None }
        ensures out { self.new ≡ N.work ∷ self.old }
        ensures bond { result ≡ N.work }
    {
        let pass = cell.table.shared.split_seat::<MakesBond<N>>(&mut self.pass);
        Bond {
            pass,
            of: PhantomData,
        }
    }

    /// Takes a bond back, and strikes its work off. The work of a bond is always out, so nothing is tested.
    pub fn untie(&mut self, cell: &Cell, bond: Bond<C>)
        requires cell { cell.now ≡ C.cell }
        ensures was_out { find bond.conn self.old ≡ Some bond }
        ensures now { self.new ≡ without bond.conn self.old }
    {
        let Bond { pass, of: _ } = bond;
        let shared = &cell.table.shared;
        shared.join_seat::<TakesBack>(&mut self.pass, pass);
        shared.load::<StrikesOff>(&mut self.pass, 0);
    }
}

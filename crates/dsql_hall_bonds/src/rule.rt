//! What the passes of a cell know, the rule that they keep, and the steps that change what they know.
use crate::names::WorkName;
use atomic_table::{Join, Play, Seat, Split, TableRule};
use std::marker::{Model, PhantomData};

/// What a pass of a cell knows. Only proofs speak of it, and no value of it is made. Contracts see it as `Known`.
pub(crate) struct View;

impl Model for View {
    ghost use Rattle.dsql_hall_bonds.specs.Passes.{Known, Spent};

    ghost Value = { Known };

    ghost view = { λ _. Spent };
}

/// The pass of a keeper or of a bond. It takes no bytes.
pub(crate) type Pass = Seat<(), View>;

/// The rule of a cell, which every step keeps. It speaks of the passes alone, not of the word in the cell.
pub(crate) struct BondRule;

impl TableRule<(), View, ()> for BondRule {
    ghost use Rattle.std.specs.Prelude.{[]};
    ghost use Rattle.dsql_hall_bonds.specs.Passes.{Keeping, KeepsBonds};

    ghost holds = { λ _ cell. KeepsBonds cell.views };

    ghost first = { λ _. Keeping [] };
}

/// The step that cuts the pass of a bond off the keeper's. From then on the keeper knows that the work is out.
pub(crate) struct MakesBond<N: WorkName> {
    of: PhantomData<N>,
}

impl<N: WorkName> Split<View> for MakesBond<N> {
    ghost use Rattle.std.specs.Prelude.{◌∷◌};
    ghost use Rattle.dsql_hall_bonds.specs.Passes.{Bound, Keeping, out_of};

    ghost left = { λ keeper. Keeping (N.work ∷ out_of keeper) };

    ghost right = { λ _. Bound N.work };
}

/// The step that brings the pass of a bond into the keeper's.
pub(crate) struct TakesBack;

impl Join<View> for TakesBack {
    ghost use Rattle.dsql_hall_bonds.specs.Passes.{Spent, TakingBack, out_of, work_of};

    ghost both = { λ keeper bond. TakingBack (out_of keeper) (work_of bond) };

    ghost spent = { Spent };
}

/// The step in which the keeper finds the work of the bond that it took back, and strikes it off.
pub(crate) struct StrikesOff;

impl Play<(), View> for StrikesOff {
    ghost use Rattle.dsql_hall_bonds.specs.Passes.{IsStruckOff};

    ghost then = { λ _ before _ after. IsStruckOff before.0 after.0 };
}

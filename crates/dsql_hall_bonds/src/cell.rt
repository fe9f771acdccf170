//! The cell that a keeper and its bonds share.
use crate::rule::{BondRule, View};
use atomic_table::Table;
use std::alloc::Global;
use std::marker::Model;

/// A cell, through which a keeper makes bonds and takes them back. It lies outside of the lock, and threads share it.
/// Contracts see which cell it is.
#[derive(Drop)]
pub struct Cell {
    pub(crate) table: Table<(), View, (), BondRule, Global>,
}

impl Model for Cell {
    ghost use Rattle.std.specs.Prelude.{◌≡◌};
    ghost use Rattle.atomic_table.specs.Seated.{TableId, table_id_coded};

    ghost Value = { TableId };

    ghost coded = { table_id_coded };

    ghost view = { λ c. c.table.shared.table_id };

    ghost invariant = { λ c. c.table.shared.table_id.words ≡ 1 };
}

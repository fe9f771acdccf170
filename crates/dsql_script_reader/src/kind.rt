/// What a label stands for.
#[derive(Clone, Copy)]
pub enum Kind {
    /// The rows that a query hands out.
    Rows,
    /// A transaction.
    Transaction,
}

impl Kind {
    ghost use Rattle.std.specs.Prelude.{◌≡◌};
    ghost use Rattle.dsql_script_reader.specs.ScriptLabels.{is_same_kind};

    /// Returns whether both kinds are the same.
    pub fn is(self, other: Kind) -> bool
        ensures { result ≡ is_same_kind self other }
    {
        match self {
            Kind::Rows => matches!(other, Kind::Rows),
            Kind::Transaction => matches!(other, Kind::Transaction),
        }
    }
}

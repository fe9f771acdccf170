ghost use Rattle.std.specs.Prelude.{◌≡◌};

use dsql_value::Txt;
use dsql_value_past::Past;
use std::marker::Model;

/// The label of the rows that a query hands out, for proofs alone. It takes no memory, and contracts see its
/// text. Code that looks up rows by their labels keeps a table of them.
#[derive(Drop)]
pub struct Label {
    text: Past<Txt>,
}

impl Model for Label {
    ghost use Rattle.std.specs.Prelude.{List, ℕ};
    ghost use Rattle.dsql_value_past.specs.Newest.{newest};

    ghost Value = { List ℕ };

    ghost view = { λ l. newest l.text.items };
}

impl Label {
    /// Returns the label with this text.
    pub fn of(text: &Txt) -> Label
        ensures { result ≡ text.now }
    {
        Label {
            text: Past::new().then(text),
        }
    }
}

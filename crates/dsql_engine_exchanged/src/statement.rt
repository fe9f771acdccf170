//! The statements of calls. Only proofs read their texts and parameters.
ghost use Rattle.std.specs.Prelude.{◌≡◌, []};

use dsql_history::{Aim, Params, Past, Txt};
use std::marker::Model;

/// The statement of a call, whose text and parameters only proofs read. It takes no memory. Contracts see what
/// it asks of the driver.
#[derive(Drop)]
pub struct Statement {
    text: Past<Txt>,
    params: Past<Params>,
    aim: Aim,
}

impl Model for Statement {
    ghost use Rattle.dsql_history.specs.past.Newest.{newest};
    ghost use Rattle.dsql_history.specs.works.Line.{Asked};

    ghost Value = { Asked };

    ghost view = { λ s. record { text = newest s.text.items; params = newest s.params.items; aim = s.aim } };
}

impl Statement {
    /// Returns the statement with this text and these parameters.
    pub fn of(text: &Txt, params: &Params, aim: Aim) -> Statement
        ensures { result ≡ (record { text = text.now; params = params.now; aim = aim }) }
    {
        Statement {
            text: Past::new().then(text),
            params: Past::new().then(params),
            aim,
        }
    }

    /// Returns the statement of no call.
    pub fn none(aim: Aim) -> Statement
        ensures { result ≡ (record { text = []; params = []; aim = aim }) }
    {
        Statement {
            text: Past::new(),
            params: Past::new(),
            aim,
        }
    }

    /// Returns what the layer does with its text.
    pub(crate) fn aim(&self) -> Aim
        ensures { result ≡ self.now.aim }
    {
        self.aim
    }
}

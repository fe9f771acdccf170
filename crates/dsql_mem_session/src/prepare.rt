ghost use Rattle.std.specs.Prelude.{◌≡◌, IfOk, OnErr};
ghost use Rattle.dsql_driver_session.specs.Calls.{Keeps};
ghost use Rattle.dsql_mem_session.specs.Calls.{prepared};
ghost use Rattle.dsql_mem_session.specs.Statement.{statement_of};

use crate::failures::{NO_SUCH_STATEMENT, NUMBERS_SPENT};
use crate::statement::Statement;
use dsql_driver::Answered;
use dsql_driver_session::{Session, copies_of_failure};
use dsql_value::{Memory, Txt};
use std::alloc::Global;

/// Prepares a text in a session and gives its statement the next handle.
pub fn prepare_in(alloc: Global, session: &mut Session, text: &Txt) -> Result<Answered, Memory>
    ensures served { IfOk result (λ answered.
        Keeps (prepared session.old text.now (statement_of text.now)) answered session.new) }
    ensures stays { OnErr result (session.new ≡ session.old) }
{
    match Statement::parse(text.as_str()) {
        Some(statement) => {
            let inputs = u16::from(statement.inputs());
            session.prepare(alloc, text, inputs, NUMBERS_SPENT)
        }
        None => copies_of_failure(alloc, NO_SUCH_STATEMENT),
    }
}

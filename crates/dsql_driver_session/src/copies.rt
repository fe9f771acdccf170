//! An answer, given twice, so that the layer has nothing to copy after the driver carried out a call.
ghost use Rattle.std.specs.Prelude.{◌≡◌, IfOk};
ghost use Rattle.dsql_driver_session.specs.Copies.{copies_of};

use dsql_driver::{Answered, DriverAnswer};
use dsql_value::{Memory, Txt};
use std::alloc::Global;

/// Returns an answer with its copy.
pub fn copies_of(answer: DriverAnswer) -> Result<Answered, Memory>
    ensures { IfOk result (λ answered. answered ≡ copies_of answer) }
{
    let copy = answer.clone()?;
    Ok(Answered { answer, copy })
}

/// Returns the answer that a call was carried out. It takes no memory.
pub fn copies_of_done() -> Answered
    ensures { result ≡ copies_of DriverAnswer.Done }
{
    Answered {
        answer: DriverAnswer::Done,
        copy: DriverAnswer::Done,
    }
}

/// Returns the answer to a statement that was executed: the last row id, and how many entries the statement affected.
/// It takes no memory.
pub fn copies_of_result(last: i64, affected: i64) -> Answered
    ensures { result ≡ copies_of (DriverAnswer.Result last affected) }
{
    Answered {
        answer: DriverAnswer::Result { last, affected },
        copy: DriverAnswer::Result { last, affected },
    }
}

/// Returns the answer that a call failed with this text.
pub fn copies_of_failure(alloc: Global, text: &str) -> Result<Answered, Memory>
    ensures { IfOk result (λ answered. answered ≡ copies_of (DriverAnswer.Fail text.now)) }
{
    let text = Txt::copy_of(alloc, text)?;
    copies_of(DriverAnswer::Fail(text))
}

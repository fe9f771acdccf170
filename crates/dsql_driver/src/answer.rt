ghost use Rattle.std.specs.Prelude.{◌≡◌};
ghost use Rattle.dsql_driver.specs.Fits.{fits_of};

use crate::call::{DriverCall, Input};
use dsql_value::{Columns, Txt, Values};
use std::alloc::AllocError;

/// A driver's answer to one call. `Skip` is Go's `driver.ErrSkip`, `Bad` is `driver.ErrBadConn`, and `End` is
/// the `io.EOF` of Rows' Next. `Invalid` is a Validator's no, and `Fail` is any other error with its text.
/// `Memory` says that the driver itself ran out of memory.
#[derive(Drop)]
pub enum DriverAnswer {
    Done,
    Prepared { handle: u32, inputs: i32 },
    Result { last: i64, affected: i64 },
    Cursor { rows: u32, columns: Columns },
    Row(Values),
    End,
    Invalid,
    Skip,
    Bad,
    Fail(Txt),
    Memory,
}

impl Clone for DriverAnswer {
    ghost is_clone = { λ x y. y ≡ x };

    fn clone(&self) -> Result<DriverAnswer, AllocError> {
        Ok(match self {
            DriverAnswer::Done => DriverAnswer::Done,
            DriverAnswer::Prepared { handle, inputs } => DriverAnswer::Prepared {
                handle: *handle,
                inputs: *inputs,
            },
            DriverAnswer::Result { last, affected } => DriverAnswer::Result {
                last: *last,
                affected: *affected,
            },
            DriverAnswer::Cursor { rows, columns } => DriverAnswer::Cursor {
                rows: *rows,
                columns: columns.clone()?,
            },
            DriverAnswer::Row(values) => DriverAnswer::Row(values.clone()?),
            DriverAnswer::End => DriverAnswer::End,
            DriverAnswer::Invalid => DriverAnswer::Invalid,
            DriverAnswer::Skip => DriverAnswer::Skip,
            DriverAnswer::Bad => DriverAnswer::Bad,
            DriverAnswer::Fail(text) => DriverAnswer::Fail(text.clone()?),
            DriverAnswer::Memory => DriverAnswer::Memory,
        })
    }
}

/// Returns true if a driver may give this answer to this call: the table of shapes.
pub fn fits(call: &DriverCall, answer: &DriverAnswer) -> bool
    ensures { result ≡ fits_of call.now answer.now }
{
    match answer {
        DriverAnswer::Memory => true,
        DriverAnswer::Bad | DriverAnswer::Fail(_) => !matches!(call, DriverCall::Valid),
        DriverAnswer::Done => is_done_when_well(call),
        DriverAnswer::Invalid => matches!(call, DriverCall::Valid),
        DriverAnswer::Prepared { handle: _, inputs } => {
            matches!(call, DriverCall::Prepare(_)) && *inputs >= -1
        }
        DriverAnswer::Result { .. } => matches!(call, DriverCall::Exec(_, _)),
        DriverAnswer::Cursor { .. } => matches!(call, DriverCall::Query(_, _)),
        DriverAnswer::Row(_) | DriverAnswer::End => matches!(call, DriverCall::Next(_)),
        DriverAnswer::Skip => matches!(
            call,
            DriverCall::Exec(Input::Text(_), _) | DriverCall::Query(Input::Text(_), _)
        ),
    }
}

/// Returns true if Done is an answer to this call.
fn is_done_when_well(call: &DriverCall) -> bool
    ensures { result ≡ fits_of call.now DriverAnswer.Done }
{
    match call {
        DriverCall::Connect
        | DriverCall::Reset
        | DriverCall::Valid
        | DriverCall::Ping
        | DriverCall::CloseStmt(_)
        | DriverCall::CloseRows(_)
        | DriverCall::Begin { .. }
        | DriverCall::Commit
        | DriverCall::Rollback
        | DriverCall::Shut => true,
        DriverCall::Prepare(_)
        | DriverCall::Exec(_, _)
        | DriverCall::Query(_, _)
        | DriverCall::Next(_) => false,
    }
}

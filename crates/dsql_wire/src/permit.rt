//! Copies of permits, and the entries that answers make of them.
ghost use Rattle.std.specs.Prelude.{◌≡◌, ◌&&◌, not, IfOk};
ghost use Rattle.dsql_driver.specs.Fits.{is_done, is_memory as is_want};
ghost use Rattle.dsql_driver.specs.Kinds.{is_begin};
ghost use Rattle.dsql_tenure.specs.Judged.{answered};

use dsql_driver::{DriverAnswer, DriverCall};
use dsql_tenure_journal::{Entry, Permit};
use dsql_value::Memory;

/// Returns a copy of the permit, or fails if there is no memory for it.
pub(crate) fn copy_of(permit: &Permit) -> Result<Permit, Memory>
    ensures { IfOk result (λ copy. copy ≡ permit.now) }
{
    Ok(Permit {
        conn: permit.conn,
        tenure: permit.tenure,
        owner: permit.owner,
        call_no: permit.call_no,
        tx: permit.tx,
        call: permit.call.clone()?,
    })
}

/// Returns the entry that this answer makes of a permit. A Begin begins a transaction only if its answer is
/// `Done`.
pub(crate) fn answered(permit: Permit, answer: DriverAnswer) -> Entry
    ensures { result ≡ answered permit answer }
{
    let tx = if is_refused_begin(&permit.call, &answer) {
        0
    } else {
        permit.tx
    };
    let mut entry = permit.answered(answer);
    entry.tx = tx;
    entry
}

fn is_refused_begin(call: &DriverCall, answer: &DriverAnswer) -> bool
    ensures { result ≡ (is_begin call.now && not (is_done answer.now)) }
{
    matches!(call, DriverCall::Begin { .. }) && !matches!(answer, DriverAnswer::Done)
}

/// Returns whether the driver had no memory.
pub(crate) fn is_memory(answer: &DriverAnswer) -> bool
    ensures { result ≡ is_want answer.now }
{
    matches!(answer, DriverAnswer::Memory)
}

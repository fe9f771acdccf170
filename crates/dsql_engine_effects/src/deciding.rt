//! What an answer to a Query or a Next decides for its call.
ghost use Rattle.std.specs.Prelude.{◌≡◌, ◌≢◌, Err, IfOk, OnErr, OnOk};
ghost use Rattle.dsql_history.specs.Readers.Owed.{fate_when};
ghost use Rattle.dsql_history.specs.driver.Fits.{is_invalid};
ghost use Rattle.dsql_history.specs.driver.Kinds.{is_bad};
ghost use Rattle.dsql_engine_calls.specs.Calls.{row_at};
ghost use Rattle.dsql_engine_calls.specs.Tried.{number};
ghost use Rattle.dsql_engine_effects.specs.Heard.{Decides};
ghost use Rattle.dsql_history.specs.Readers.Decisions.{fetch_decision, query_decision, told_row};
ghost use Rattle.dsql_history.specs.works.Calls.{word_of};
ghost use Rattle.dsql_history.specs.scan.Rows.{row_of};

use dsql_engine_calls::replies::reply_of;
use dsql_engine_calls::works::tries_again;
use dsql_engine_calls::{CallRow, NoRoom};
use dsql_history::{
    Dest, DriverAnswer, DriverCall, Entry, Fate, FaultWord, Reply, RowFault, ScanFault, Task,
    Value, Work, scan_row,
};
use std::alloc::Global;

/// Returns the fate of a connection by this answer, if no earlier answer said anything of the connection.
pub fn fate_of(answer: &DriverAnswer) -> Fate
    ensures { result ≡ fate_when (is_bad answer.now) (is_invalid answer.now) }
{
    match answer {
        DriverAnswer::Bad => Fate::Bad,
        DriverAnswer::Invalid => Fate::Invalid,
        _ => Fate::Good,
    }
}

/// Returns what the answer to a Query or a Next decides for the call of an entry.
pub fn decided_by(
    alloc: Global,
    rows: &Vec<CallRow>,
    entry: &Entry,
) -> Result<Option<Reply>, NoRoom>
    ensures { IfOk result (λ reply. Decides (number (row_at rows.now.items entry.now.call_no).tried)
        (row_at rows.now.items entry.now.call_no).work entry.now entry.now.answer reply) }
{
    match rows.get(entry.call_no as usize) {
        Some(row) => decided_in(alloc, row.tried.number(), &row.work, entry),
        None => decided_in(alloc, 1, &Work::Look, entry),
    }
}

/// Returns the same for a call with this work, in the try of this number.
fn decided_in(
    alloc: Global,
    number: u32,
    work: &Work,
    entry: &Entry,
) -> Result<Option<Reply>, NoRoom>
    ensures { IfOk result (λ reply. Decides number work.now entry.now entry.now.answer reply) }
{
    match &entry.call {
        DriverCall::Next(_) => {
            fetch_decision(
                alloc,
                tries_again(work, number),
                number,
                work,
                &entry.answer,
            )
        },
        DriverCall::Query(_, _) => {
            query_decision(tries_again(work, number), number, work, &entry.answer)
        },
        _ => Ok(None),
    }
}

/// Returns what the answer to a fetch decides in this try for a call with this work. `again` says whether
/// another try may follow.
fn fetch_decision(
    alloc: Global,
    again: bool,
    number: u32,
    work: &Work,
    answer: &DriverAnswer,
) -> Result<Option<Reply>, NoRoom>
    ensures { IfOk result (λ reply. reply ≡ fetch_decision again number work.now answer.now) }
{
    match (work, answer) {
        (Work::Statement(_, Task::ReadOne(dests)), DriverAnswer::Row(values)) => {
            row_reply(alloc, values.as_slice(), dests.as_slice())
        }
        (Work::Fetch(_), answer) => Ok(Some(Reply::Truth(matches!(answer, DriverAnswer::Row(_))))),
        (_, DriverAnswer::End) => Ok(Some(Reply::NoRows)),
        (_, answer) => Ok(reply_of(again, number, answer.clone()?)),
    }
}

/// Returns what the answer to a Query decides in this try for a call with this work. `again` says whether
/// another try may follow.
fn query_decision(
    again: bool,
    number: u32,
    work: &Work,
    answer: &DriverAnswer,
) -> Result<Option<Reply>, NoRoom>
    ensures { IfOk result (λ reply. reply ≡ query_decision again number work.now answer.now) }
{
    match (work, answer) {
        (Work::Statement(_, Task::HandOut(_)), DriverAnswer::Cursor { columns, .. }) => {
            Ok(Some(Reply::Rows(columns.clone()?)))
        }
        (_, answer) => Ok(reply_of(again, number, answer.clone()?)),
    }
}

/// Returns what the values of a row decide for a call with these destinations.
fn row_reply(alloc: Global, values: &[Value], dests: &[Dest]) -> Result<Option<Reply>, NoRoom>
    ensures { IfOk result (λ reply. reply ≡ told_row (row_of values.now dests.now)) }
{
    match scan_row(alloc, values, dests) {
        Ok(cells) => Ok(Some(Reply::Cells(cells))),
        Err(fault) => row_fault(fault),
    }
}

/// Returns the reply of a call whose row can't be scanned. Fails if that is for want of memory.
pub fn row_fault(fault: RowFault) -> Result<Option<Reply>, NoRoom>
    ensures reply { IfOk result (λ reply. reply ≡ told_row (Err fault)) }
    ensures memory { OnOk result (fault ≢ RowFault.Memory) }
    ensures full { OnErr result (fault ≡ RowFault.Memory) }
{
    match fault {
        RowFault::DestCount { want, got } => Ok(Some(Reply::DestCount { want, got })),
        RowFault::At { index, fault } => Ok(word_of(fault).map(|fault| Reply::Scan {
            column: index,
            fault,
        })),
        RowFault::Memory => Err(NoRoom),
    }
}

/// Returns the word of a scan fault, unless it is want of memory.
fn word_of(fault: ScanFault) -> Option<FaultWord>
    ensures { result ≡ word_of fault }
{
    match fault {
        ScanFault::FromNull(_) => Some(FaultWord::FromNull),
        ScanFault::NotANumber => Some(FaultWord::NotANumber),
        ScanFault::OutOfRange => Some(FaultWord::OutOfRange),
        ScanFault::NotABool => Some(FaultWord::NotABool),
        ScanFault::NotUtf8 => Some(FaultWord::NotUtf8),
        ScanFault::Unsupported { .. } => Some(FaultWord::Unsupported),
        ScanFault::Memory => None,
    }
}

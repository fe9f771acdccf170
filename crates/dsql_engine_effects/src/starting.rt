//! What is kept of a call that enters, as far as that doesn't depend on the history.
ghost use Rattle.std.specs.Option.{option_copied};
ghost use Rattle.std.specs.Prelude.{◌≡◌, true, Some, None, Err, IfOk, OnErr, option_map};
ghost use Rattle.dsql_history.specs.course.Made.{or_else};
ghost use Rattle.dsql_history.specs.numbered.Numbered.{thing_of, was_made};
ghost use Rattle.dsql_history.specs.Readers.Calls.{done_with};
ghost use Rattle.dsql_history.specs.Readers.Transactions.{end_of};
ghost use Rattle.dsql_history.specs.declared.reply.Reply.TheVariants.{DbClosed};
ghost use Rattle.dsql_history.specs.declared.work.Work.TheVariants.{End};
ghost use Rattle.dsql_history.specs.Readers.Decisions.{fault_reply, options_refused, refused_with, told_row};
ghost use Rattle.dsql_engine_effects.specs.Starting.{IsBegun, IsChecked, StartsBegin, StartsOver, told_on};

use crate::deciding::row_fault;
use dsql_engine_calls::{CallStart, Ending, NoRoom};
use dsql_history::{
    ArgFault, Args, DbEnd, Items, Label, Level, Params, Reply, RowFault, RowsEnd, Txs, Txt, Work,
    check_args,
};
use std::alloc::Global;

/// A text with its arguments, and the reply if one of them is refused.
#[derive(Drop)]
pub struct Checked {
    pub text: Txt,
    pub params: Params,
    pub refused: Option<Reply>,
}

/// Returns what is kept of a call that runs a text. `told` is the reply that the call gets from what it is made
/// on, if any.
pub fn over_text(
    checked: Checked,
    work: Work,
    label: Option<String>,
    told: Option<Reply>,
) -> CallStart
    ensures work { result.work ≡ work }
    ensures text { result.text ≡ checked.text }
    ensures params { result.params ≡ checked.params }
    ensures decided { result.decided ≡ or_else told checked.refused }
    ensures label { result.label ≡ label }
    ensures tx_label { result.tx_label ≡ None }
    ensures closes { result.closes ≡ None }
    ensures ends { result.ends ≡ None }
{
    let Checked {
        text,
        params,
        refused,
    } = checked;
    let decided = match told {
        Some(reply) => Some(reply),
        None => refused,
    };
    CallStart {
        work,
        text,
        params,
        label,
        tx_label: None,
        closes: None,
        ends: None,
        decided,
    }
}

/// Returns what is kept of a call that runs no text of its own. It takes no memory.
pub fn over_rows(
    alloc: Global,
    work: Work,
    closes: Option<u32>,
    decided: Option<Reply>,
) -> CallStart
    ensures { StartsOver work closes None decided result }
{
    CallStart {
        work,
        text: Txt::new(String::new(alloc)),
        params: Items::none(alloc),
        label: None,
        tx_label: None,
        closes,
        ends: None,
        decided,
    }
}

/// Returns what is kept of a call that is to end a transaction. `ends` says how it ends it, if it does. It
/// takes no memory.
pub fn over_end(alloc: Global, tx: u32, ends: Option<Ending>, decided: Option<Reply>) -> CallStart
    ensures { StartsOver (End tx) None ends decided result }
{
    CallStart {
        work: Work::End(tx),
        text: Txt::new(String::new(alloc)),
        params: Items::none(alloc),
        label: None,
        tx_label: None,
        closes: None,
        ends,
        decided,
    }
}

/// Returns what is kept of a call that begins a transaction.
pub fn over_begin(
    alloc: Global,
    label: &Txt,
    level: Level,
    read_only: bool,
    decided: Option<Reply>,
) -> Result<CallStart, NoRoom>
    ensures { IfOk result (λ it. StartsBegin label.now level read_only decided it) }
{
    let tx_label = Some(String::from_str(alloc, label.as_str())?);
    Ok(CallStart {
        work: Work::Begin {
            label: Label::of(label),
            level,
            read_only,
        },
        text: Txt::new(String::new(alloc)),
        params: Items::none(alloc),
        label: None,
        tx_label,
        closes: None,
        ends: None,
        decided,
    })
}

/// Returns the reply that a begin gets at once, if any. `closed_by` is what closed the database, if anything
/// did. `begin_options` says whether the driver takes options.
pub fn begin_told(
    closed_by: Option<DbEnd>,
    begin_options: bool,
    level: Level,
    read_only: bool,
) -> Option<Reply>
    ensures { result ≡ or_else (option_map DbClosed closed_by) (options_refused begin_options level read_only) }
{
    match closed_by {
        Some(end) => Some(Reply::DbClosed(end)),
        None => options_refused(begin_options, level, read_only),
    }
}

/// Returns the reply that a begin gets because of its options, if any. `begin_options` says whether the driver
/// takes options.
fn options_refused(begin_options: bool, level: Level, read_only: bool) -> Option<Reply>
    ensures { result ≡ options_refused begin_options level read_only }
{
    if begin_options {
        return None;
    }
    match level {
        Level::Default if read_only => Some(Reply::ReadOnly),
        Level::Default => None,
        _ => Some(Reply::Isolation(level)),
    }
}

/// Returns the reply that a call on the label's transaction gets at once, if any: there is none, or it has ended.
pub fn told_on(txs: &Txs, tx: Option<u32>, label: &Txt) -> Result<Option<Reply>, NoRoom>
    requires { IsBegun tx txs.now.txs }
    ensures told { IfOk result (λ reply. reply ≡ told_on label.now tx txs.now.txs) }
    ensures full { OnErr result (tx ≡ None) }
{
    match tx {
        None => Ok(Some(Reply::Absent(label.copy()?))),
        Some(tx) => Ok(told_done(txs, tx)),
    }
}

/// Returns the reply that a call gets on a transaction that was begun, if the transaction has ended.
fn told_done(txs: &Txs, tx: u32) -> Option<Reply>
    requires { was_made tx txs.now.txs ≡ true }
    ensures { result ≡ done_with (end_of (thing_of tx txs.now.txs)) }
{
    match txs.admit(tx) {
        Ok(()) => None,
        Err(done) => Some(Reply::TxDone(done.by)),
    }
}

/// Returns a text with its arguments. `named_ok` says whether the driver takes names.
pub fn accept(alloc: Global, named_ok: bool, text: &Txt, args: &Args) -> Result<Checked, NoRoom>
    ensures { IfOk result (λ it. IsChecked named_ok text.now args.now it) }
{
    let text = text.copy()?;
    match check_args(alloc, -1, named_ok, args.as_slice()) {
        Ok(params) => Ok(Checked {
            text,
            params,
            refused: None,
        }),
        Err(fault) => {
            let refused = Some(refusal(fault)?);
            Ok(Checked {
                text,
                params: Items::none(alloc),
                refused,
            })
        }
    }
}

/// Returns the reply of a call whose arguments are refused.
fn refusal(fault: ArgFault) -> Result<Reply, NoRoom>
    ensures reply { IfOk result (λ reply. refused_with fault ≡ Some reply) }
{
    match fault {
        ArgFault::HighBit(number) => Ok(Reply::HighBit(number)),
        ArgFault::NumArgs { want, got } => Ok(Reply::NumArgs { want, got }),
        ArgFault::NamedRefused(name) => Ok(Reply::NamedRefused(name)),
        ArgFault::BadName(name) => Ok(Reply::BadName(name)),
        ArgFault::Memory => Err(NoRoom),
    }
}

/// Returns what rows report of the fault that ended them, if one did.
pub fn fault_reply(ended: Option<&RowsEnd>) -> Result<Reply, NoRoom>
    ensures { IfOk result (λ reply. reply ≡ fault_reply (option_copied ended.entry)) }
{
    match ended {
        Some(RowsEnd::Failed(text)) => Ok(Reply::Driver(text.copy()?)),
        Some(RowsEnd::BadConn) => Ok(Reply::BadConn(1)),
        _ => Ok(Reply::Ok),
    }
}

/// Returns the reply of a call whose row can't be scanned.
pub fn scan_fault(fault: RowFault) -> Result<Reply, NoRoom>
    ensures { IfOk result (λ reply. told_row (Err fault) ≡ Some reply) }
{
    row_fault(fault)?.ok_or(NoRoom)
}

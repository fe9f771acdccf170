//! What the desk records of a call that enters.
ghost use Rattle.std.specs.Prelude.{◌≡◌, ◌<◌, Some, None, cond, IfOk, length, string_bytes, option_map};
ghost use Rattle.dsql_laws_calls.specs.works.Limits.{most_within_a_step};
ghost use Rattle.dsql_engine_desk.specs.Desk.{past, Stands};
ghost use Rattle.dsql_engine_desk.specs.Entering.{StartsEnd, StartsText, tx_named};
ghost use Rattle.dsql_engine_effects.specs.Starts.{Starts, label_made};
ghost use Rattle.dsql_laws_calls.specs.history.Readers.Calls.{target_refused};
ghost use Rattle.dsql_laws_calls.specs.history.Readers.Labels.{is_made, names_fit};
ghost use Rattle.dsql_laws_calls.specs.history.Readers.Unfinished.{is_unfinished};
ghost use Rattle.dsql_laws_calls.specs.history.Readers.Works.{scope_of, tx_maker, works};
ghost use Rattle.dsql_laws_calls.specs.history.declared.event.Op.TheVariants as ops;

use crate::desk::Desk;
use dsql_engine_calls::{CallStart, Ending, NoRoom};
use dsql_engine_effects::starting::{
    accept, begin_told, over_begin, over_end, over_rows, over_text, told_on,
};
use dsql_laws_calls::{
    Args, Dests, Label, Level, Op, Reply, Scope, Target, Task, TxEnd, Txt, Work,
};
use std::alloc::Global;

#[tactic(auto, unfolding(crate::specs::Desk::Stands))]
impl Desk {
    /// Returns what the desk records of a call that enters with this operation, and takes the memory for it.
    /// Fails with `NoRoom` if there is none.
    pub fn entering(&self, alloc: Global, op: &Op) -> Result<CallStart, NoRoom>
        requires stands { Stands self.now }
        requires few { length (past self.now) < most_within_a_step }
        ensures { IfOk result (λ it. Starts (past self.now) op.now it) }
    {
        match op {
            Op::Exec { target, text, args } => self.entering_exec(alloc, target, text, args),
            Op::Query {
                label,
                target,
                text,
                args,
            } => self.entering_query(alloc, label, target, text, args),
            Op::One {
                target,
                dests,
                text,
                args,
            } => self.entering_one(alloc, target, dests, text, args),
            Op::Begin {
                label,
                level,
                read_only,
            } => self.entering_begin(alloc, label, *level, *read_only),
            Op::Commit { tx } => self.entering_end(alloc, tx, TxEnd::Commit),
            Op::Rollback { tx } => self.entering_end(alloc, tx, TxEnd::Rollback),
            Op::Ping => {
                let decided = self.closed_by.map(Reply::DbClosed);
                Ok(over_rows(alloc, Work::Ping, None, decided))
            }
            Op::Next { rows } => self.entering_next(alloc, rows),
            Op::Scan { rows, dests } => self.entering_scan(alloc, rows, dests.as_slice()),
            Op::RowsClose { rows } => self.entering_close(alloc, rows),
            Op::Err { rows } => self.entering_err(alloc, rows),
            Op::DbClose => Ok(over_rows(alloc, Work::Look, None, Some(Reply::Ok))),
            Op::Stats => {
                let stats = Reply::Stats(self.pool.stats());
                Ok(over_rows(alloc, Work::Look, None, Some(stats)))
            }
        }
    }

    /// Returns whether no call that has entered makes the label that this operation makes.
    pub fn names_fit(&self, op: &Op) -> bool
        requires { Stands self.now }
        ensures { result ≡ names_fit (past self.now) op.now }
    {
        match op {
            Op::Query { label, .. } | Op::Begin { label, .. } => !self.is_made(label),
            _ => true,
        }
    }

    /// Returns whether a call that has entered makes the label, for rows or for a transaction.
    fn is_made(&self, label: &Txt) -> bool
        requires { Stands self.now }
        ensures { result ≡ is_made (past self.now) label.now }
    {
        let name = label.as_str();
        self.labels.contains_key(name) || self.tx_labels.contains_key(name)
    }

    /// Returns what the desk records of an `ExecContext`.
    fn entering_exec(
        &self,
        alloc: Global,
        target: &Target,
        text: &Txt,
        args: &Args,
    ) -> Result<CallStart, NoRoom>
        requires { Stands self.now }
        ensures { IfOk result (λ it. Starts (past self.now) (ops.Exec target.now text.now args.now) it) }
    {
        let work = Work::Statement(self.scope_of(target), Task::Execute);
        self.entering_text(alloc, target, text, args, work, None)
    }

    /// Returns what the desk records of a `QueryContext`.
    fn entering_query(
        &self,
        alloc: Global,
        label: &Txt,
        target: &Target,
        text: &Txt,
        args: &Args,
    ) -> Result<CallStart, NoRoom>
        requires { Stands self.now }
        ensures { IfOk result (λ it. Starts (past self.now) (ops.Query label.now target.now text.now args.now) it) }
    {
        let work = Work::Statement(self.scope_of(target), Task::HandOut(Label::of(label)));
        let label = Some(String::from_str(alloc, label.as_str())?);
        self.entering_text(alloc, target, text, args, work, label)
    }

    /// Returns what the desk records of a `QueryRowContext`.
    fn entering_one(
        &self,
        alloc: Global,
        target: &Target,
        dests: &Dests,
        text: &Txt,
        args: &Args,
    ) -> Result<CallStart, NoRoom>
        requires { Stands self.now }
        ensures { IfOk result (λ it. Starts (past self.now) (ops.One target.now dests.now text.now args.now) it) }
    {
        let work = Work::Statement(self.scope_of(target), Task::ReadOne(dests.clone()?));
        self.entering_text(alloc, target, text, args, work, None)
    }

    /// Returns what the desk records of a call that runs a text.
    fn entering_text(
        &self,
        alloc: Global,
        target: &Target,
        text: &Txt,
        args: &Args,
        work: Work,
        label: Option<String>,
    ) -> Result<CallStart, NoRoom>
        requires stands { Stands self.now }
        requires label { option_map string_bytes label ≡ label_made work }
        ensures { IfOk result (λ it. StartsText (past self.now) target.now text.now args.now work it) }
    {
        let told = self.target_told(target)?;
        let checked = accept(alloc, self.caps.named, text, args)?;
        Ok(over_text(checked, work, label, told))
    }

    /// Returns what the desk records of a `BeginTx`.
    fn entering_begin(
        &self,
        alloc: Global,
        label: &Txt,
        level: Level,
        read_only: bool,
    ) -> Result<CallStart, NoRoom>
        requires { Stands self.now }
        ensures { IfOk result (λ it. Starts (past self.now) (ops.Begin label.now level read_only) it) }
    {
        let told = begin_told(self.closed_by, self.caps.begin_options, level, read_only);
        over_begin(alloc, label, level, read_only, told)
    }

    /// Returns what the desk records of a `Tx.Commit` or a `Tx.Rollback`.
    fn entering_end(&self, alloc: Global, label: &Txt, by: TxEnd) -> Result<CallStart, NoRoom>
        requires { Stands self.now }
        ensures { IfOk result (λ it. StartsEnd (past self.now) label.now by it) }
    {
        let tx = self.tx_maker(label);
        let ends = self.ending_of(tx, by);
        let told = told_on(&self.txs, self.tx_named(label), label)?;
        Ok(over_end(alloc, tx, ends, told))
    }

    /// Returns the ending that a call makes as it enters to end a transaction. Returns `None` if the
    /// transaction's begin hasn't replied yet.
    fn ending_of(&self, tx: u32, by: TxEnd) -> Option<Ending>
        requires { Stands self.now }
        ensures { result ≡ cond (is_unfinished (past self.now) tx) None (Some (record { tx = tx; by = by })) }
    {
        if self.is_unfinished(tx) {
            None
        } else {
            Some(Ending { tx, by })
        }
    }

    /// Returns the reply that a call gets at once because of its target, if there is one.
    fn target_told(&self, target: &Target) -> Result<Option<Reply>, NoRoom>
        requires { Stands self.now }
        ensures { IfOk result (λ reply. reply ≡ target_refused (past self.now) target.now) }
    {
        match target {
            Target::Db => Ok(self.closed_by.map(Reply::DbClosed)),
            Target::Label(tx) => told_on(&self.txs, self.tx_named(tx), tx),
        }
    }

    /// Returns where a statement on a target is carried out.
    fn scope_of(&self, target: &Target) -> Scope
        requires { Stands self.now }
        ensures { result ≡ scope_of (works (past self.now)) target.now }
    {
        match target {
            Target::Db => Scope::Db,
            Target::Label(tx) => Scope::Held(self.tx_maker(tx)),
        }
    }

    /// Returns the first call whose transaction has the label; 0 if there is none.
    fn tx_maker(&self, label: &Txt) -> u32
        requires { Stands self.now }
        ensures { result ≡ tx_maker (works (past self.now)) label.now }
    {
        match self.tx_labels.get(label.as_str()) {
            Some(call) => *call,
            None => 0,
        }
    }

    /// Returns the call whose transaction has the label, if the transaction was begun and the call has replied.
    fn tx_named(&self, label: &Txt) -> Option<u32>
        requires { Stands self.now }
        ensures { result ≡ tx_named (past self.now) label.now }
    {
        let tx = self.tx_maker(label);
        if self.is_begun(tx) && !self.is_unfinished(tx) {
            Some(tx)
        } else {
            None
        }
    }
}

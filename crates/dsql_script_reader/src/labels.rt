//! Keeps the labels that the lines of a script make.
ghost use Rattle.std.specs.Prelude.{◌≡◌, [], ◌∷◌, ◌++◌, is_some, OnOk, OnErr};
ghost use Rattle.dsql_script_forms.specs.Outcomes.{IsFault};
ghost use Rattle.dsql_script_reader.specs.ScriptHead.{labels_made, labels_after};
ghost use Rattle.dsql_script_reader.specs.ScriptLabels.{kind_of, stands_for, if_made, unless_made, target_fault, label_fault, line_fault};

use crate::kind::Kind;
use crate::script::ScriptLine;
use dsql_history::{Op, Target};
use dsql_script_forms::LineFault;
use indexmap::IndexMap;
use std::alloc::Global;
use std::marker::Model;

/// The labels that lines made. Contracts see them in the order of these lines, each with its kind.
#[derive(Drop)]
pub struct Labels {
    kinds: IndexMap<String, Kind>,
}

impl Model for Labels {
    ghost use Rattle.std.specs.Prelude.{List, map};
    ghost use Rattle.dsql_script_reader.specs.ScriptLabels.{MadeLabel, made_label};

    ghost Value = { List MadeLabel };

    ghost view = { λ l. map made_label l.kinds.entries };
}

impl Labels {
    /// Returns an empty set of labels. It takes no memory.
    pub fn new(alloc: Global) -> Labels
        ensures { result ≡ [] }
    {
        Labels {
            kinds: IndexMap::new(alloc),
        }
    }

    /// Makes the label of a line, if the line makes one. A line whose label is at fault is refused and makes no
    /// label.
    pub fn take(&mut self, alloc: Global, line: &ScriptLine) -> Result<(), LineFault>
        ensures fault { IsFault result (line_fault self.old line.now) }
        ensures made { OnOk result (self.new ≡ labels_after self.old line.now) }
        ensures unchanged { OnErr result (self.new ≡ self.old) }
    {
        match line {
            ScriptLine::Client { op, .. } => self.take_call(alloc, op),
            _ => Ok(()),
        }
    }

    fn take_call(&mut self, alloc: Global, op: &Op) -> Result<(), LineFault>
        ensures fault { IsFault result (label_fault self.old op.now) }
        ensures made { OnOk result (self.new ≡ self.old ++ labels_made op.now) }
        ensures unchanged { OnErr result (self.new ≡ self.old) }
    {
        match op {
            Op::Exec { target, .. } | Op::One { target, .. } => self.find_target(target),
            Op::Query { label, target, .. } => {
                self.find_target(target)?;
                self.make(alloc, Kind::Rows, label.as_str())
            }
            Op::Next { rows } | Op::Scan { rows, .. } | Op::RowsClose { rows } | Op::Err { rows } =>
                self.find(Kind::Rows, rows.as_str()),
            Op::Begin { label, .. } => self.make(alloc, Kind::Transaction, label.as_str()),
            Op::Commit { tx } | Op::Rollback { tx } => self.find(Kind::Transaction, tx.as_str()),
            Op::Ping | Op::DbClose | Op::Stats => Ok(()),
        }
    }

    /// Makes a label for something of this kind. Fails with `LabelTaken` if the label was made before.
    fn make(&mut self, alloc: Global, kind: Kind, label: &str) -> Result<(), LineFault>
        ensures fault { IsFault result (if_made self.old label.now) }
        ensures made { OnOk result (self.new ≡ self.old ++ (label.now, kind) ∷ []) }
        ensures unchanged { OnErr result (self.new ≡ self.old) }
    {
        if self.has(label) {
            return Err(LineFault::LabelTaken);
        }
        self.kinds.insert(String::from_str(alloc, label)?, kind)?;
        Ok(())
    }

    /// Fails with `UnknownLabel` if the call's target is a label that stands for no transaction.
    fn find_target(&self, target: &Target) -> Result<(), LineFault>
        ensures { IsFault result (target_fault self.now target.now) }
    {
        match target {
            Target::Db => Ok(()),
            Target::Label(tx) => self.find(Kind::Transaction, tx.as_str()),
        }
    }

    /// Fails with `UnknownLabel` if the label wasn't made for something of this kind.
    fn find(&self, kind: Kind, label: &str) -> Result<(), LineFault>
        ensures { IsFault result (unless_made self.now kind label.now) }
    {
        if !self.stands_for(kind, label) {
            return Err(LineFault::UnknownLabel);
        }
        Ok(())
    }

    fn stands_for(&self, kind: Kind, label: &str) -> bool
        ensures { result ≡ stands_for kind (kind_of self.now label.now) }
    {
        match self.kinds.get(label) {
            Some(made) => made.is(kind),
            None => false,
        }
    }

    fn has(&self, label: &str) -> bool
        ensures { result ≡ is_some (kind_of self.now label.now) }
    {
        self.kinds.contains_key(label)
    }
}

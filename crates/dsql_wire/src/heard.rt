ghost use Rattle.std.specs.Prelude.{◌≡◌, IfOk};

use dsql_driver::DriverAnswer;
use dsql_tenure_journal::Entry;
use dsql_value::Memory;
use std::marker::Model;

/// An entry that a driver's answer made. Only a request to a fleet for a connection and a wire's call make one,
/// and nothing copies it. Contracts see the entry.
#[derive(Drop)]
pub struct Heard {
    entry: Entry,
    /// The driver's second answer, until it is taken. There is none if a journal keeps it, or if a fleet
    /// refused.
    second: Option<DriverAnswer>,
}

impl Model for Heard {
    ghost use Rattle.std.specs.Prelude.{◌≡◌, IfSome};
    ghost use Rattle.dsql_tenure_journal.specs.declared.entry.Entry.{Entry};

    ghost Value = { Entry };

    ghost view = { λ h. h.entry };

    ghost invariant = { λ h. IfSome h.second (λ answer. answer ≡ h.entry.answer) };
}

impl Heard {
    pub(crate) fn new(entry: Entry) -> Heard
        ensures { result ≡ entry }
    {
        Heard {
            entry,
            second: None,
        }
    }

    /// Returns the same entry together with the driver's second answer.
    pub(crate) fn with_second(self, second: DriverAnswer) -> Heard
        requires { second ≡ self.answer }
        ensures { result ≡ self }
    {
        Heard {
            entry: self.into_entry(),
            second: Some(second),
        }
    }

    /// Returns the entry.
    pub fn entry(&self) -> &Entry
        ensures { result.now ≡ self.now }
    {
        &self.entry
    }

    /// Returns the entry, for the caller to keep.
    pub fn into_entry(self) -> Entry
        ensures { result ≡ self }
    {
        let Heard { entry, second: _ } = self;
        entry
    }

    /// Returns the answer again, for the caller to keep: the driver's second one if it is there, otherwise a
    /// copy. Fails if there is no memory for the copy.
    pub fn take_second(&mut self) -> Result<DriverAnswer, Memory>
        ensures second { IfOk result (λ second. second ≡ self.old.answer) }
        ensures same { self.new ≡ self.old }
    {
        match self.second.take() {
            Some(second) => Ok(second),
            None => Ok(self.entry.answer.clone()?),
        }
    }
}

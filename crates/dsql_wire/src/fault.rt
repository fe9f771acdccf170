use dsql_tenure_journal::Permit;
use std::fmt;
use thiserror::Error;

/// Why a driver call left no entry. Each fault hands the permit back.
#[derive(Drop, Error)]
pub enum WireFault {
    /// The journal's judge doesn't allow the call. The driver wasn't called.
    #[error("a stray permit")]
    Stray(Permit),
    /// There was no memory, here or in the driver.
    #[error("out of memory")]
    Memory(Permit),
}

/// Prints the fault's text, without the permit.
impl fmt::Debug for WireFault {
    fn fmt<W: fmt::Write>(&self, f: &mut fmt::Formatter<W>) -> fmt::Result {
        fmt::Display::fmt(self, f)
    }
}

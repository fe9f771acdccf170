ghost use Rattle.std.specs.Prelude.{◌≡◌};
ghost use Rattle.dsql_stmt.specs.Statements.{answer_of, closed_by};

use crate::fault::StmtClosed;
use dsql_value::Txt;

/// What a statement was prepared on: the database, or a transaction or a pinned connection by its number.
#[derive(Clone, Copy)]
pub enum Home {
    Db,
    Tx(u32),
    Pin(u32),
}

/// A statement that was added: its text, what it was prepared on, and the call that closed it first.
#[derive(Drop)]
pub struct Stmt {
    pub text: Txt,
    pub home: Home,
    pub closed: Option<u32>,
}

/// A driver's answer when it prepares a text: the number of the handle, and how many arguments it takes. The
/// latter is -1 if the driver doesn't know.
#[derive(Clone, Copy)]
pub struct Prepared {
    pub handle: u32,
    pub inputs: i32,
}

impl Stmt {
    /// Returns what a run of the statement may use, if `live` is its live handle. Fails with `StmtClosed` if
    /// the statement was closed.
    pub fn answer(&self, live: Option<(u32, i32)>) -> Result<Option<(u32, i32)>, StmtClosed>
        ensures { result ≡ answer_of live self.now }
    {
        match self.closed {
            Some(call) => Err(StmtClosed { call }),
            None => Ok(live),
        }
    }

    /// Closes the statement, if nothing has.
    pub fn close(&mut self, call: u32)
        ensures { self.new ≡ closed_by call self.old }
    {
        if self.closed.is_none() {
            self.closed = Some(call);
        }
    }
}

//! Questions about the state of the pool.
ghost use Rattle.std.specs.Prelude.{◌≡◌};
ghost use Rattle.dsql_wait.specs.Requests.{waits};

use crate::conn::Conn;
use crate::pool::Pool;

impl Pool {
    /// Returns the open connections, in the order in which they began to be opened.
    pub fn conns(&self) -> &[Conn]
        ensures { result.now ≡ self.now.pooled.conns }
    {
        self.conns.rows()
    }

    /// Returns whether the request of a call waits.
    pub fn waits(&self, call: u32) -> bool
        ensures { result ≡ waits call self.now.pooled.waiting }
    {
        self.waiting.waits(call)
    }
}

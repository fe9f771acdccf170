//! Requests for a connection.
ghost use Rattle.std.specs.Prelude.{◌≡◌, ◌+◌, ◌<◌, ◌≤◌, ◌∷◌, [], ◌++◌, ℕ, length, false, Ok, Err, OnOk, OnErr, IfOk, IfErr};

use crate::moves::Move;
use crate::pool::{MOST_OPEN, Pool};
use crate::request::{AskFault, Asked};
use dsql_wait::Request;

impl Pool {
    ghost use Rattle.dsql_wait.specs.Requests.{waits};
    ghost use Rattle.dsql_pool.specs.Pooled.{open_count, most_open, most_drawn};
    ghost use Rattle.dsql_pool.specs.Moved.{joined};
    ghost use Rattle.dsql_pool.specs.Decisions.{ask_outcome, when_none_idle};
    ghost use Rattle.dsql_pool.specs.Calls.{MayAsk, asks, moves_asked};

    // Returns the outcome of a request that takes no idle connection.
    fn when_none_idle(&self) -> Result<Asked, AskFault>
        requires { self.now.pooled.drawn ≤ most_drawn }
        ensures outcome { result ≡ when_none_idle self.now.pooled }
        ensures few { (c : ℕ) → result ≡ Ok (Asked.Opening c) → open_count self.now.pooled < most_open }
    {
        let open = self.conns.count();
        let most = self.limits.max_open;
        if open >= MOST_OPEN as u64 && !(1 <= most && most <= MOST_OPEN) {
            Err(AskFault::TooMany)
        } else if most == 0 || open < most as u64 {
            Ok(Asked::Opening(self.conns.next_number()))
        } else {
            Ok(Asked::Queued)
        }
    }

    // Returns the outcome of a request.
    fn when_asked(&self, request: &Request) -> Result<Asked, AskFault>
        requires { self.now.pooled.drawn ≤ most_drawn }
        ensures outcome { result ≡ ask_outcome request.now self.now.pooled }
        ensures few { (c : ℕ) → result ≡ Ok (Asked.Opening c) → open_count self.now.pooled < most_open }
    {
        if self.closed {
            return Ok(Asked::Closed);
        }
        if !request.last && !self.idle.is_empty() {
            let conn = self.idle[self.idle.len() - 1];
            let tenure = self.next_tenure(conn);
            return Ok(Asked::Lent { conn, tenure });
        }
        self.when_none_idle()
    }

    // Appends a request to those that wait.
    fn join(&mut self, request: Request)
        requires room { 0 < self.old.spare }
        requires new { waits request.call self.old.pooled.waiting ≡ false }
        ensures pooled { self.new.pooled ≡ joined request self.old.pooled }
        ensures moves { self.new.moves ≡ self.old.moves }
        ensures spare { self.old.spare ≤ self.new.spare + 1 }
    {
        match self.waiting.join(request) {
            Ok(()) => {}
            Err(_) => unreachable!(),
        }
        self.counts = self.counts.with_one_waiting();
    }

    /// Asks for a connection.
    ///
    /// The pool lends the idle connection that came back last, or begins to open one, or lets the request wait.
    /// A last try doesn't look at idle connections. This follows Go's `DB.conn`, whose third try asks for a new
    /// connection.
    pub fn ask(&mut self, request: Request) -> Result<Asked, AskFault>
        requires request { MayAsk request self.old.pooled }
        requires drawn { self.old.pooled.drawn ≤ most_drawn }
        ensures outcome { IfOk result (λ asked. ask_outcome request self.old.pooled ≡ Ok asked) }
        ensures ok { OnOk result (self.new.pooled ≡ asks request self.old.pooled) }
        ensures moves { OnOk result (self.new.moves ≡ moves_asked request (ask_outcome request self.old.pooled)) }
        ensures many { IfErr result (λ fault. fault ≡ AskFault.TooMany → ask_outcome request self.old.pooled
            ≡ Err AskFault.TooMany) }
        ensures full { IfErr result (λ fault. fault ≡ AskFault.Memory → self.old.spare ≡ 0) }
        ensures err { OnErr result (self.new.pooled ≡ self.old.pooled) }
        ensures spare { self.old.spare ≤ self.new.spare + 1 }
    {
        if self.make_ready().is_err() {
            return Err(AskFault::Memory);
        }
        match self.when_asked(&request) {
            Ok(Asked::Lent { conn, tenure }) => {
                self.make_lend(conn, request.owner, request.call);
                Ok(Asked::Lent { conn, tenure })
            }
            Ok(Asked::Opening(conn)) => {
                self.make_opening(Some(request.owner), request.call);
                Ok(Asked::Opening(conn))
            }
            Ok(Asked::Queued) => {
                self.join(request);
                Ok(Asked::Queued)
            }
            Ok(Asked::Closed) => Ok(Asked::Closed),
            Err(fault) => Err(fault),
        }
    }
}

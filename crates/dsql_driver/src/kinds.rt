//! The kinds of driver calls and answers, the handles and cursors that a call names, and those that an answer
//! gives.
ghost use Rattle.std.specs.Prelude.{◌≡◌};
ghost use Rattle.dsql_driver.specs.Fits.{is_done, is_failure, is_skip, is_invalid};
ghost use Rattle.dsql_driver.specs.Kinds.{is_connect, is_reset, is_valid, is_ping, is_prepare, runs_text, runs_handle, is_next, is_close_rows, is_close_stmt, is_begin, is_ending, is_shut, is_work, handle_of, cursor_of, is_bad, ends_cursor, given_handle, given_cursor};

use crate::answer::DriverAnswer;
use crate::call::{DriverCall, Input};

impl DriverCall {
    /// Returns true if the call opens a connection.
    pub fn is_connect(&self) -> bool
        ensures { result ≡ is_connect self.now }
    {
        matches!(self, DriverCall::Connect)
    }

    /// Returns true if the call makes a connection ready for its next owner.
    pub fn is_reset(&self) -> bool
        ensures { result ≡ is_reset self.now }
    {
        matches!(self, DriverCall::Reset)
    }

    /// Returns true if the call tests a connection before it goes back.
    pub fn is_valid(&self) -> bool
        ensures { result ≡ is_valid self.now }
    {
        matches!(self, DriverCall::Valid)
    }

    /// Returns true if the call asks whether the database answers.
    pub fn is_ping(&self) -> bool
        ensures { result ≡ is_ping self.now }
    {
        matches!(self, DriverCall::Ping)
    }

    /// Returns true if the call prepares a text.
    pub fn is_prepare(&self) -> bool
        ensures { result ≡ is_prepare self.now }
    {
        matches!(self, DriverCall::Prepare(_))
    }

    /// Returns true if the call is an Exec or Query of a text.
    pub fn runs_text(&self) -> bool
        ensures { result ≡ runs_text self.now }
    {
        matches!(
            self,
            DriverCall::Exec(Input::Text(_), _) | DriverCall::Query(Input::Text(_), _)
        )
    }

    /// Returns true if the call is an Exec or Query of a handle.
    pub fn runs_handle(&self) -> bool
        ensures { result ≡ runs_handle self.now }
    {
        matches!(
            self,
            DriverCall::Exec(Input::Handle(_), _) | DriverCall::Query(Input::Handle(_), _)
        )
    }

    /// Returns true if the call fetches a row.
    pub fn is_next(&self) -> bool
        ensures { result ≡ is_next self.now }
    {
        matches!(self, DriverCall::Next(_))
    }

    /// Returns true if the call closes a cursor.
    pub fn is_close_rows(&self) -> bool
        ensures { result ≡ is_close_rows self.now }
    {
        matches!(self, DriverCall::CloseRows(_))
    }

    /// Returns true if the call closes a handle.
    pub fn is_close_stmt(&self) -> bool
        ensures { result ≡ is_close_stmt self.now }
    {
        matches!(self, DriverCall::CloseStmt(_))
    }

    /// Returns true if the call begins a transaction.
    pub fn is_begin(&self) -> bool
        ensures { result ≡ is_begin self.now }
    {
        matches!(self, DriverCall::Begin { .. })
    }

    /// Returns true if the call is a Commit or a Rollback.
    pub fn is_ending(&self) -> bool
        ensures { result ≡ is_ending self.now }
    {
        matches!(self, DriverCall::Commit | DriverCall::Rollback)
    }

    /// Returns true if the call closes the connection.
    pub fn is_shut(&self) -> bool
        ensures { result ≡ is_shut self.now }
    {
        matches!(self, DriverCall::Shut)
    }

    /// Returns true if the call works with a statement or its rows.
    pub fn is_work(&self) -> bool
        ensures { result ≡ is_work self.now }
    {
        matches!(
            self,
            DriverCall::Prepare(_)
                | DriverCall::Exec(_, _)
                | DriverCall::Query(_, _)
                | DriverCall::Next(_)
                | DriverCall::CloseRows(_)
                | DriverCall::CloseStmt(_)
        )
    }

    /// Returns the handle that an Exec, Query or CloseStmt names. Returns `None` if the call names none.
    pub fn handle(&self) -> Option<u32>
        ensures { result ≡ handle_of self.now }
    {
        match self {
            DriverCall::Exec(Input::Handle(handle), _)
            | DriverCall::Query(Input::Handle(handle), _)
            | DriverCall::CloseStmt(handle) => Some(*handle),
            _ => None,
        }
    }

    /// Returns the cursor that a Next or CloseRows names. Returns `None` for any other call.
    pub fn cursor(&self) -> Option<u32>
        ensures { result ≡ cursor_of self.now }
    {
        match self {
            DriverCall::Next(rows) | DriverCall::CloseRows(rows) => Some(*rows),
            _ => None,
        }
    }
}

impl DriverAnswer {
    /// Returns true if the driver carried the call out and has nothing to report.
    pub fn is_done(&self) -> bool
        ensures { result ≡ is_done self.now }
    {
        matches!(self, DriverAnswer::Done)
    }

    /// Returns true if the connection is bad. The driver did nothing on it.
    pub fn is_bad(&self) -> bool
        ensures { result ≡ is_bad self.now }
    {
        matches!(self, DriverAnswer::Bad)
    }

    /// Returns true if the answer is Bad or another error.
    pub fn is_failure(&self) -> bool
        ensures { result ≡ is_failure self.now }
    {
        matches!(self, DriverAnswer::Bad | DriverAnswer::Fail(_))
    }

    /// Returns true if the driver declines to run the text, which must then be prepared.
    pub fn is_skip(&self) -> bool
        ensures { result ≡ is_skip self.now }
    {
        matches!(self, DriverAnswer::Skip)
    }

    /// Returns true if the connection failed its test.
    pub fn is_invalid(&self) -> bool
        ensures { result ≡ is_invalid self.now }
    {
        matches!(self, DriverAnswer::Invalid)
    }

    /// Returns true if a cursor gives no row after this answer.
    pub fn ends_cursor(&self) -> bool
        ensures { result ≡ ends_cursor self.now }
    {
        matches!(
            self,
            DriverAnswer::End | DriverAnswer::Bad | DriverAnswer::Fail(_)
        )
    }

    /// Returns the handle that the answer gives, or `None` if it gives none.
    pub fn given_handle(&self) -> Option<u32>
        ensures { result ≡ given_handle self.now }
    {
        match self {
            DriverAnswer::Prepared { handle, .. } => Some(*handle),
            _ => None,
        }
    }

    /// Returns the cursor that the answer gives, or `None` if it gives none.
    pub fn given_cursor(&self) -> Option<u32>
        ensures { result ≡ given_cursor self.now }
    {
        match self {
            DriverAnswer::Cursor { rows, .. } => Some(*rows),
            _ => None,
        }
    }
}

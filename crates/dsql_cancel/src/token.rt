ghost use Rattle.std.specs.Prelude.{◌≡◌};
ghost use Rattle.dsql_cancel.specs.Token as token;

/// Why a token is cancelled, as Go's `context.Canceled` and `context.DeadlineExceeded`.
#[derive(Clone, Copy, Debug)]
pub enum Cause {
    Canceled,
    Deadline,
}

/// A token at a moment: its deadline in nanoseconds, if it has one, and why it is cancelled, if it is.
#[derive(Clone, Copy)]
pub struct Token {
    pub deadline: Option<u64>,
    pub cause: Option<Cause>,
}

impl Token {
    /// Returns a token without a deadline.
    pub fn endless() -> Token
        ensures { result ≡ token.endless }
    {
        Token {
            deadline: None,
            cause: None,
        }
    }

    /// Returns a token with the deadline `at`, made at the moment `now`.
    pub fn timed(at: u64, now: u64) -> Token
        ensures { result ≡ token.timed at now }
    {
        let cause = if at <= now {
            Some(Cause::Deadline)
        } else {
            None
        };
        Token {
            deadline: Some(at),
            cause,
        }
    }

    /// Returns true if the token isn't cancelled.
    pub fn runs(&self) -> bool
        ensures { result ≡ token.runs self.now }
    {
        self.cause.is_none()
    }

    /// Returns true if the deadline cancels the token at this moment.
    pub fn runs_out(&self, now: u64) -> bool
        ensures { result ≡ token.runs_out now self.now }
    {
        match self.deadline {
            Some(at) => self.runs() && at <= now,
            None => false,
        }
    }

    /// Returns the token, cancelled. A first cause stays.
    pub fn stopped(self, why: Cause) -> Token
        ensures { result ≡ token.stopped why self }
    {
        let cause = self.cause.unwrap_or(why);
        Token {
            deadline: self.deadline,
            cause: Some(cause),
        }
    }

    /// Returns the token as it is from this moment on.
    pub fn at_moment(self, now: u64) -> Token
        ensures { result ≡ token.at_moment now self }
    {
        if self.runs_out(now) {
            self.stopped(Cause::Deadline)
        } else {
            self
        }
    }
}

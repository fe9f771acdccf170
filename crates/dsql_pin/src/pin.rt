ghost use Rattle.std.specs.Prelude.{◌≡◌, ◌<◌};
ghost use Rattle.dsql_pin.specs.Pinned.{most_held, admitted, ended_by, with_one_more, with_one_fewer};

use crate::end::{ConnDone, PinEnd};

/// A connection that is pinned, with the number of rows and transactions that the pin holds, and what ended it.
#[derive(Clone, Copy)]
pub struct Pin {
    pub conn: u32,
    pub holds: u32,
    pub ended: Option<PinEnd>,
}

impl Pin {
    /// Fails with `ConnDone` if something has ended the pin.
    pub fn admit(&self) -> Result<(), ConnDone>
        ensures { result ≡ admitted self.now }
    {
        match self.ended {
            Some(by) => Err(ConnDone { by }),
            None => Ok(()),
        }
    }

    /// Ends the pin, or fails with `ConnDone` if something has already ended it.
    pub fn close(&mut self, by: PinEnd) -> Result<(), ConnDone>
        ensures admits { result ≡ admitted self.old }
        ensures pin { self.new ≡ ended_by by self.old }
    {
        let admits = self.admit();
        if admits.is_ok() {
            self.ended = Some(by);
        }
        admits
    }

    /// Makes the pin hold one more.
    pub fn hold(&mut self)
        requires { self.old.holds < most_held }
        ensures { self.new ≡ with_one_more self.old }
    {
        self.holds += 1;
    }

    /// Makes the pin hold one fewer.
    pub fn release(&mut self)
        requires { 0 < self.old.holds }
        ensures { self.new ≡ with_one_fewer self.old }
    {
        self.holds -= 1;
    }
}

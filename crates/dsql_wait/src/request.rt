ghost use Rattle.std.specs.Prelude.{◌≡◌};
ghost use Rattle.dsql_wait.specs.Requests.{is_of};

use dsql_tenure_journal::Owner;
use dsql_value::Txt;

/// A call that wants a connection.
///
/// It records the owner, whether this is the call's last try, its token's name if it has one, and when it asked, in
/// nanoseconds.
#[derive(Drop)]
pub struct Request {
    pub call: u32,
    pub owner: Owner,
    pub last: bool,
    pub token: Option<Txt>,
    pub asked: u64,
}

impl Request {
    /// Returns whether the request has a token of that name.
    pub(crate) fn is_of(&self, token: &Txt) -> bool
        ensures { result ≡ is_of token.now self.now }
    {
        match &self.token {
            Some(own) => own.as_str() == token.as_str(),
            None => false,
        }
    }
}

use thiserror::Error;

/// The failure that no token with this name was made.
#[derive(Clone, Copy, Debug, Error)]
#[error("no token has this name")]
pub struct Unknown;

/// Why a call on the tokens failed. The call changed nothing.
#[derive(Clone, Copy, Debug, Error)]
pub enum TokenFault {
    #[error("no token has this name")]
    NoToken,
    #[error("a token has this name already")]
    TokenExists,
    #[error("out of memory")]
    Memory,
}

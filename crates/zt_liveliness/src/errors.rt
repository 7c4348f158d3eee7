// Why calls fail.
ghost use Rattle.std.specs.Prelude.{◌≡◌};
ghost use Rattle.zt_liveliness.specs.Lively.{api_error, token_error};

use crate::answers::Token;
use zt_protocol::{CallError, Refusal};

/// Why a call on sessions and uplinks failed, and changed nothing. The first that applies is the
/// answer, but `Memory` can come in place of a refusal of the gateway.
#[derive(Clone, Copy, PartialEq, Eq, Debug)]
pub enum ApiError {
    /// The number isn't that of an open face of the kind that the call takes.
    NoSuchFace,
    /// The token's session is closed, or its id isn't live there.
    NoSuchToken,
    /// The session has no such subscriber.
    NoSuchSubscriber,
    /// 4294967295 tokens, or queries and subscribers, were made on the session: there is no id left.
    Spent,
    /// The gateway refuses the call.
    Refused(Refusal),
    /// Memory ran out.
    Memory,
}

/// Why a token wasn't undeclared, with the token.
#[derive(Clone, Copy, PartialEq, Eq, Debug)]
pub struct UndeclareError {
    /// The token, given back.
    pub token: Token,
    /// Why it stays.
    pub error: ApiError,
}

// An error of the gateway, as a caller is told it.
pub(crate) fn api_error(error: CallError) -> ApiError
    ensures { result ≡ api_error error }
{
    match error {
        CallError::Refused(refusal) => ApiError::Refused(refusal),
        CallError::Memory => ApiError::Memory,
    }
}

// The same of an undeclaration: a token whose id isn't live isn't there.
pub(crate) fn token_error(error: CallError) -> ApiError
    ensures { result ≡ token_error error }
{
    match error {
        CallError::Refused(Refusal::UnknownToken) => ApiError::NoSuchToken,
        other => api_error(other),
    }
}

// What calls answer: the numbers of their statuses.
ghost use Rattle.std.specs.Prelude.{◌≡◌};
ghost use Rattle.zt_engine.specs.Status.{status_of};

use zt_liveliness::ApiError;

/// The call was carried out.
pub const DONE: u32 = 0;

/// A buffer is too short. Nothing was taken.
pub const SHORT_BUFFER: u32 = 4;

/// Memory ran out. Nothing changed.
pub const OUT_OF_MEMORY: u32 = 5;

/// There is no engine: it wasn't opened, or is closed.
pub const NOT_OPEN: u32 = 6;

/// There is an engine already.
pub const ALREADY_OPEN: u32 = 7;

/// A number is none of those that the argument may have.
pub const BAD_ARGUMENT: u32 = 8;

/// The bytes are no key expression.
pub const BAD_KEY: u32 = 9;

/// The number isn't that of an open face of the kind that the call takes.
pub const NO_SUCH_FACE: u32 = 10;

/// The token's session is closed, or its id isn't live there.
pub const NO_SUCH_TOKEN: u32 = 11;

/// The session has no such subscriber.
pub const NO_SUCH_SUBSCRIBER: u32 = 12;

/// The session has no such query, or its end was given.
pub const NO_SUCH_GET: u32 = 13;

/// The session has no id left.
pub const SPENT: u32 = 14;

/// Nothing waits.
pub const NOTHING: u32 = 15;

/// All replies of the query were given. It comes once.
pub const ENDED: u32 = 16;

/// The gateway refuses the call: this, and the number of the refusal.
pub const REFUSED: u32 = 100;

/// The status of an error.
pub(crate) fn status_of(error: ApiError) -> u32
    ensures { result ≡ status_of error }
{
    match error {
        ApiError::NoSuchFace => NO_SUCH_FACE,
        ApiError::NoSuchToken => NO_SUCH_TOKEN,
        ApiError::NoSuchSubscriber => NO_SUCH_SUBSCRIBER,
        ApiError::Spent => SPENT,
        ApiError::Refused(refusal) => REFUSED + u32::from(refusal.number()),
        ApiError::Memory => OUT_OF_MEMORY,
    }
}

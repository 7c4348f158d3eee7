//! Liveliness after Zenoh's session interface, over a gateway: sessions declare tokens, ask which
//! tokens are there and read the replies, and subscribe to those that come and go; uplinks are read
//! and written by whoever carries their messages to the gateways above.
//!
//! A call that fails changes nothing: it takes all memory that it needs before the gateway carries
//! anything out. `specs/Lively.antt` says of each call why it is refused, which call of the gateway
//! it makes and what it leaves. `replies_are_what_is_sent` says of every list of calls that a query
//! is given what its session was sent for it, and `queries_are_answered_at_once` what that is in the
//! query's own call. `replies_come_once` says that each expression comes once, and nothing after the
//! end.
//!
//! A subscriber with history begins with the tokens that are there; one without is given what its
//! session is told from then on. `samples_are_what_is_sent` says what each is given, and
//! `subscribers_see_what_is_kept` what one with history makes of it.
//!
//! Uplinks serve gateways of the modes client and peer: among routers tokens go along trees, and no
//! call here passes their tables.
#![tactic(auto)]

mod answers;
mod books;
mod carrying;
mod errors;
mod laws;
mod liveliness;
mod looking;
mod mail;
mod queues;
mod steps;
mod subscribing;

pub use answers::{Reply, Token};
pub use errors::{ApiError, UndeclareError};
pub use laws::{
    queries_are_answered_at_once, replies_are_what_is_sent, replies_come_once,
    samples_are_what_is_sent, subscribers_see_what_is_kept,
};
pub use liveliness::Liveliness;
pub use zt_samples::Sample;

//! The liveliness engine as calls that take numbers and bytes and answer a number, for programs in
//! other languages. What each call does is what its call of `zt_liveliness` does.
//!
//! A call answers a status, `status::DONE` where it was carried out. What it gives is written to a
//! number, a buffer or a message of the caller. A text that is longer than its buffer stays where
//! it is: the call answers `status::SHORT_BUFFER` and the length, and the next call gives the text.
#![tactic(auto)]

mod commands;
mod engine;
mod keys;
mod laws;
mod making;
mod messages;
mod numbers;
mod receiving;
pub mod status;

pub use commands::{
    close_face, expire, open_session, open_uplink, receive, undeclare_subscriber, undeclare_token,
};
pub use engine::{Engine, new_liveliness};
pub use laws::messages_are_read_back;
pub use making::{declare_subscriber, declare_token, get};
pub use messages::MessageFields;
pub use receiving::{take_reply, take_sample, take_sent};

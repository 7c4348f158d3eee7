//! The messages, calls, script lines and answers of the gateway: plain types that every other crate
//! speaks of.
//!
//! They are what `zenoh-protocol` is to Zenoh, for liveliness alone: tokens, interests and the
//! finals that close them, and the declarations of subscribers and queryables that answer an
//! interest.
#![tactic(auto)]

mod calls;
mod entries;
mod errors;
mod interests;
mod lines;
mod messages;

pub use calls::{Call, TreeTable};
pub use entries::{Entry, Report, Sent};
pub use errors::{CallError, LineError, Refusal, RunError};
pub use interests::{InterestMode, InterestOptions};
pub use lines::Line;
pub use messages::{InterestId, Message, QueryableInfo, TokenId, copy_expression};

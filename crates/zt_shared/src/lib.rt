//! A gateway with a journal: each call on it stands there with what it came to. Many threads can
//! share one.
#![tactic(auto)]

mod copies;
mod entries;
mod journaled;
mod recording;
mod shared;

pub use copies::sent_by;
pub use entries::{Journal, JournalEntry, Receipt};
pub use journaled::Journaled;
pub use shared::{CloseError, Pass, SharedGateway};
pub use zt_shared_value::Spent;

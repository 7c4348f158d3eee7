//! One value behind a lock, and passes with which threads call it. The value keeps a journal of
//! the calls; each pass knows its own entries and how far it has seen the journal.
#![tactic(auto)]

mod closing;
mod part;
mod pass;
mod plays;
mod recorder;
mod rule;
mod shared;
mod steps;

pub use closing::CloseError;
pub use part::{Part, View};
pub use pass::Pass;
pub use recorder::Recorder;
pub use rule::Passing;
pub use shared::{SharedRecorder, Spent};

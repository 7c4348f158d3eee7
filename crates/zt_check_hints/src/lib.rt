//! Where expressions may stand, by look-ups. What isn't hinted stands nowhere; what is hinted is to
//! be looked at there.
//!
//! It shares no code with the gateway that is judged, and knows keys alone.
#![tactic(auto)]

mod hints;
mod list;

pub use hints::Hints;
pub use list::{Hint, HintList};

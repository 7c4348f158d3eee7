//! Interests on their way: where an interest is sent, what a new face to the north is sent, and how
//! interests and asks end.
#![tactic(auto)]

mod ending;
mod opening;
mod ordering;
mod routing;
mod untelling;
mod upstream;

pub use ending::{final_of, final_of_both};
pub use opening::{open_final, open_interests, open_tokens, opening_interests, opening_tokens};
pub use routing::{is_target, route, sent_as};
pub use untelling::untell;
pub use upstream::{end_upstream, finish};

//! Router regions: who a face means by a node id, and how tokens go along the trees.
#![tactic(auto)]

mod greeting;
mod ordering;
mod own;
mod passing;
mod reaching;
mod tables;

pub use greeting::greet;
pub use ordering::left_out;
pub use own::{hidden_regions, hide, newly_shown, show};
pub use passing::{pass_on, unpass};
pub use tables::{source_of, table_of};

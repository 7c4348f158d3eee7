//! What a claimed transcript breaks, found line by line, for the engineer whose program printed it.
//!
//! The first break is the one that the judge names. The others are found by the judge's own
//! deciders. That they are told rightly is tested; what is proved of it is that it is safe.
#![tactic(auto)]

mod asks;
mod claims;
mod endings;
mod explaining;
mod forms;
mod keeping;
mod list;
mod program;
mod turns;

pub use explaining::{Explanation, explain, explain_input};
pub use list::MOST_BREAKS;
pub use program::explain_tool;

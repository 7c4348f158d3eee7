//! Scripts that many workers carry out on one gateway with a monitor beside them, from the bytes of
//! a script to those of its transcript and of what the monitor's polls found.
#![tactic(auto)]

mod carrying;
mod printing;
mod program;
mod watching;
mod words;

pub use program::watch_tool;
pub use watching::{MOST_POLLS, watch};

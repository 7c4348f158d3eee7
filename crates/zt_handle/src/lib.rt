//! An engine in memory of its own, as a C program keeps it between calls.
#![tactic(auto)]

mod handle;
mod opening;
mod raw_box;

pub use handle::Handle;
pub use opening::{close, open};

//! Scripts carried out, from the bytes of a script to those of its transcript.
//!
//! A script makes gateways and faces and lets them speak, one call a line. Its transcript has an
//! entry for each line: the messages that the call sent, or why it was refused.
#![tactic(auto)]

mod carrying;
mod making;
mod program;
mod running;

pub use program::tool;
pub use running::run;
pub use zt_links::Fabric;

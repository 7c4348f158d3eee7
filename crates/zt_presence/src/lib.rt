//! A monitor of a shared gateway: which tokens are alive, at places of its one history. It learns
//! them by asks of its own, whose entries stand in the journal.
#![tactic(auto)]

mod monitor;
mod tables;

pub use monitor::{Monitor, PresenceError};
pub use tables::Change;

//! What an accepted call does to a gateway: what it changes, and what it says.
#![tactic(auto)]

mod asking;
mod carrying;
mod closing;
mod ending;
mod expiring;
mod finding;
mod opening;
mod routed;
mod speaking;
mod speech;
mod tokens;

pub use carrying::carry_out;

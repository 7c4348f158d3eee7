//! A gateway: the calls on it, the messages that it has for its faces, and calls that are prepared
//! first and carried out later without memory.
#![tactic(auto)]

mod builder;
mod calls;
mod carrying;
mod copies;
mod gateway;
mod listing;
mod lookups;
mod ordering;
mod outbox;
mod prepared;
mod sorting;
mod sourced;

pub use builder::GatewayBuilder;
pub use gateway::Gateway;
pub use lookups::Lookups;
pub use prepared::Prepared;
pub use sourced::Sources;

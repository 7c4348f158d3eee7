//! Look-ups in place of going over all rows: how many live rows of an expression stand in each
//! region. The containers know keys and regions, and no gateway.
#![tactic(auto)]

mod anchored;
mod boxed_keys;
mod groups;
mod live;
mod regions;
mod search;

pub use boxed_keys::BoxedKeys;
pub use groups::{KeyGroups, KeySet};
pub use live::{LiveCounts, RegionTest};
pub use regions::RegionCounts;

//! Local resources: what a face was told of resources of its own, and of aggregates of them.
//!
//! `LocalResources` is generic in the ids, in the resources (`LocalResourceTrait`; every key is
//! one) and in the infos (`LocalResourceInfoTrait`), which for the resources that match an
//! aggregated one make its info. Contracts see two lists in the order of the keys. The definitions
//! stand in `specs/`: `Resources` (the lists, and what always holds), `Folding` (the info from
//! scratch), `Results` (what is told, in its order), `Ending` (what goes with an interest),
//! `Interests` (sets), `Laws` (of both traits) and `Counts` (infos that add up).
#![tactic(auto)]

mod aggregated;
mod change;
mod ending;
mod fold;
mod interests;
mod locals;
mod results;
mod rows;
mod simple;
mod traits;

pub use locals::LocalResources;
pub use rows::{LocalResourceInsertResult, LocalResourceRemoveResult};
pub use traits::{LocalResourceInfoTrait, LocalResourceTrait};

//! Rows by their ids, in order of id. Ids mostly rise, so rows stand in places of a list; where ids
//! come in any order, they stand in a map from the first on that would stand before many others.
//! Contracts see both as the rows of the definitions.
//!
//! They know ids alone, and nothing of what stands under these.
#![tactic(auto)]

mod place;
mod placing;
mod rising;
mod rows;
mod walk;

pub use place::Place;
pub use rising::RisingRows;
pub use rows::RowsById;
pub use walk::Iter;

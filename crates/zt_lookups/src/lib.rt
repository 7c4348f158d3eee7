//! What a gateway looks up beside its faces: the numbers of expressions, which regions it lists, and
//! which pairs of regions are refused. It knows keys and regions, and no gateway.
//!
//! `specs/Listed` and `specs/Refused` say what look-ups of regions and of pairs have to be.
#![tactic(auto)]

mod admission;
mod dictionary;
mod regions;

pub use admission::RefusedPairs;
pub use dictionary::Dictionary;
pub use regions::ListedRegions;

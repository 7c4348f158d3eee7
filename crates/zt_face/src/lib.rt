//! What a face keeps, in memory: the tokens that it declares and was told, the interests that it
//! holds and was sent, what it asks, and its entities. Contracts see it as the value of the
//! definitions.
#![tactic(auto)]

mod asking;
mod copying;
mod dropping;
mod entities;
mod face;
mod hearing;
mod ids;
mod interest;
mod local_interests;
mod local_tokens;

pub use copying::{Duplicate, copy_all, copy_keys, copy_queryables};
pub use face::{AskState, FaceState, PendingInterest};
pub use interest::RemoteInterest;
pub use local_interests::LocalInterests;
pub use local_tokens::LocalTokens;
pub use zt_rows::RowsById;

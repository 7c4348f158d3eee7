//! A face of a gateway with its rows, as a claimed transcript shows it: what calls change of it, and
//! what printed messages do. What a call says isn't asked.
//!
//! Rows stand in plain lists, in the order of the definitions: ids rise, and are searched for by
//! halves. What a face was told stands in the order in which it was told, and ids of a text that is
//! judged may not rise there; hints stand beside, by which the rows of an expression are looked up.
//! It shares no code with the gateway that is judged. After an error nothing is said of the rows:
//! they are to be dropped.
#![tactic(auto)]

mod among;
mod by_id;
mod changes;
mod copies;
mod face;
mod face_changes;
mod hearing;
mod interest;
mod rising;
mod told;

pub use among::is_among;
pub use by_id::{Ranked, near, place_in, remove};
pub use changes::{Change, change_each};
pub use copies::{Copied, copy_each, copy_keys, copy_queryables};
pub use face::ShownFace;
pub use face_changes::{
    AddInterest, AddToken, DropInterest, DropToken, EndInitial, EndPending, ExpirePendings, Hear,
    SetEntities,
};
pub use interest::{ShownAsk, ShownInterest, ShownPending};
pub use told::ToldRows;

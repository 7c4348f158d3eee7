//! What a gateway keeps, and how it is rebuilt where a call runs out of memory: so that a call is
//! carried out in place, and nothing is changed by one that runs out of memory.
#![tactic(auto)]

mod boxed;
mod copying;
mod kept;
mod restorable;

pub use boxed::BoxedState;
pub use copying::copy_call;
pub use restorable::{Ahead, Former, RestorableState, Turn};
pub use zt_face::{copy_keys, copy_queryables};

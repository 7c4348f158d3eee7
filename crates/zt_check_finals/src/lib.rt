//! How asks end in a turn of a claimed transcript: their finals, and what follows them.
//!
//! It is decided for the asks that the turn may make, end or finish, given that no other had ended
//! before it. It stands on the definitions, and shares no code with the gateway that is judged.
#![tactic(auto)]

mod ending;
mod finals;
mod pendings;

pub use ending::{Ending, ending_by};
pub use finals::{finals_in, is_final_of_some, is_that, nothing_follows, sends_finals};
pub use pendings::stands_after;

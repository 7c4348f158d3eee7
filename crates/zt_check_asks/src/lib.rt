//! What asks are answered in a turn of a claimed transcript.
//!
//! It is decided for the asks that the turn may make or answer. It stands on the definitions, and
//! shares no code with the gateway that is judged.
#![tactic(auto)]

mod answers;
mod asks;
mod calls;
mod gathered;

pub use answers::answers_asks;
pub use asks::{answers_in, stands, was_sent_as};
pub use calls::{Told, declared_for, is_made, told_of};

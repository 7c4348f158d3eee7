//! What a claimed transcript breaks, as an engineer is told it: each break with its face, its
//! expression, what was expected and what was found, and the sentences that say so.
#![tactic(auto)]

mod breaks;
mod sentences;
mod words;

pub use breaks::{Answer, Break, Ending, FaceNumber, Finding, Form, Keeping, Owed, Row};
pub use sentences::print_breaks;

//! The open faces of a gateway that a claimed transcript shows, in order of number, and look-ups of
//! them: a face by its number, and by an expression the faces that declare it or were told it. Those
//! that an expression may be owed to are in a list.
//!
//! It stands on the definitions, and shares no code with the gateway that is judged. After an error
//! nothing is said of the faces: they are to be dropped.
#![tactic(auto)]

mod admission;
mod faces;
mod found;
mod hearing;
mod owing;
mod searching;
mod tokens;
mod trying;

pub use admission::{admits, is_shown_and_admitted, sees};
pub use faces::ShownFaces;
pub use owing::is_owed;
pub use searching::TokenTest;
pub use trying::FaceTest;

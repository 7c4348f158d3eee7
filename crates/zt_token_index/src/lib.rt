//! Which faces may be told of tokens, and which were: look-ups of the faces to the north, of those
//! that hold an interest in an expression, in tokens or in entities, and of those that
//! were told an expression and under which id, in place of going over all faces.
//!
//! The faces of an expression are kept in order of their number, so that whoever is to hear that a
//! token is gone is found by one look-up, and each face's id among theirs.
#![tactic(auto)]

mod faces;
mod hearing;
mod index;
mod interests;
mod many;
mod seekers;

pub use faces::id_in;
pub use index::ToldIndex;
pub use seekers::Seekers;

//! Lists of rows in the order of their keys, and where a key stands there. Where keys are numbers,
//! a row is a pair, or what is seen as one (`Numbered`).
//!
//! Definitions and laws stand in `specs/`: `Rows` (words), `Found` and `Placing` (what rows in
//! order find, and what an edit at a place does), `Pairs` (that pairs are seen as they are).
#![tactic(auto)]

mod numbered;
mod search;

pub use numbered::Numbered;
pub use search::{place_of, place_of_number};

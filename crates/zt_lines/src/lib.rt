//! The script's lines, read by their grammar.
#![tactic(auto)]

mod entities;
mod grammar;
mod lines;
mod listed;
mod lists;
mod makers;
mod south;
mod words;

pub use grammar::grammar_is_read;
pub use lines::read_line;

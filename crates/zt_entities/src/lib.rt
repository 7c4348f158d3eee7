//! Subscribers and queryables: what interests in them are answered.
#![tactic(auto)]

mod answers;
mod found;
mod infos;
mod numbers;
mod queryables;
mod subscribers;

pub use answers::answer_entities;

//! A fabric of gateways and the links between them, in memory, which carries out the lines of a
//! script.
#![tactic(auto)]

mod accepting;
mod calls;
mod causes;
mod deciding;
mod ends;
mod fabric;
mod joining;
mod link_causes;
mod linking;
mod making;
mod unlinking;

pub use fabric::Fabric;

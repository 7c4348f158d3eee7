//! The tables of router regions, as lines hand them in, with what of them counts. It stands on the
//! definitions, and shares no code with the gateway.
#![tactic(auto)]

mod counting;
mod table;

pub use table::ShownTable;

//! The four strategies of a gateway's regions; Zenoh calls them hats. One file has one hat, and
//! each answers the same eleven rules, in the same order: who may be there, what its faces are
//! told, where interests go if the region is north, and how its sources are listed. All else that
//! a gateway does is the same for the four, and asks the hat where they differ.
#![tactic(auto)]

mod broker;
mod client;
mod hat;
mod peer;
mod router;

pub use hat::{Hat, hat_of, north_hat};

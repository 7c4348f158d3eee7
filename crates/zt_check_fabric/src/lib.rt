//! What a claimed transcript shows of gateways, faces and links: one line with its entry after
//! another. What a call says isn't asked; what is printed is heard.
//!
//! It stands on the definitions, and shares no code with the gateway that is judged. After an error
//! nothing is said of the fabric: it is to be dropped.
#![tactic(auto)]

mod calling;
mod carrying;
mod changing;
mod ends;
mod fabric;
mod hearing;
pub mod laws;
mod members;
mod opening;
mod pending;
mod places;
mod queues;
mod renumbering;
mod waiting;

pub use ends::{end_call, end_region};
pub use fabric::{ShownFabric, ShownNode};
pub use places::{ShownLink, ShownPlace};
pub use queues::ShownQueue;

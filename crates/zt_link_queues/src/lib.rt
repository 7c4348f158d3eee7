//! Links and what waits on them: the number of a face in scripts, the open link that a face ends,
//! both looked up, and for each link end its queue of messages.
#![tactic(auto)]

mod faces;
mod links;
mod places;
mod queue;
mod queues;

pub use faces::FaceNumbers;
pub use links::{LinkState, Links};
pub use places::{PlaceState, Places};
pub use queues::Queues;

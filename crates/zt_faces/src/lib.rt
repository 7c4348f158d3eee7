//! The open faces of a gateway, in order of number: each is found, changed and removed by its
//! number. The first face of a router is found too, and so is what has waited for the timeout.
//! What is done to a face is a value of its own, which says how the face changes, and that its
//! number, its region and its router stay. The faces know no gateway.
#![tactic(auto)]

mod asked;
mod by_number;
mod by_router;
mod by_time;
mod changes;
mod slots;
mod walk;

pub use asked::Asker;
pub use by_number::Faces;
pub use changes::{FaceAddition, FaceChange};
pub use walk::OpenFaces;

//! What a fabric keeps, and what turns it: gateways, the places of their faces, the links between
//! these and what waits on them; calls that are carried out at gateways, and undone where a line
//! fails. Which line makes which call, and why one is refused, is said above.
#![tactic(auto)]

mod carrying;
mod copying;
mod gateways;
mod links;
mod places;
mod printing;
mod sorting;
mod state;
mod turning;

pub use carrying::{carry_at, next_face, open_at, take_message};
pub use gateways::{add_gateway, peer_of};
pub use links::{is_linked_face, is_open_link, oldest, sending_end, speaking_end};
pub use places::{member_at, member_place};
pub use sorting::sort_by_face;
pub use state::{FabricState, NodeState};
pub use turning::{Turned, hear_call, settle, settle_apart, undo, undo_opening};

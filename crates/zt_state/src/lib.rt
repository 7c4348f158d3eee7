//! What a gateway keeps, in memory: its settings, its faces with their rows, and the rows of its
//! router regions. Contracts see them as the values of the definitions.
#![tactic(auto)]

mod asking;
mod changes;
mod copying;
mod faces;
mod gateway;
mod hearing;
mod live;
mod numbers;
mod opening;
mod routed;
mod timing;

pub use gateway::GatewayState;
pub use zt_face::{
    AskState, FaceState, LocalInterests, LocalTokens, PendingInterest, RemoteInterest, RowsById,
};
pub use zt_faces::{Asker, OpenFaces};

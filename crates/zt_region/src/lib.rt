//! Regions: which part of the network a face of a gateway belongs to, found from the modes of both
//! nodes and the south configuration, and which pairs of regions may hear of each other's tokens.
//! Carries Zenoh's `runtime/region` and the types that it reads.
#![tactic(auto)]

mod compute;
mod matching;
mod region;
mod zid;

pub use compute::{
    compute_multicast_region, compute_multicast_region_of, compute_region_of,
    compute_transient_bound_of,
};
pub use region::{
    Admission, Bound, Filter, Interfaces, NodeId, Region, RegionError, SouthConf, Subregion,
    TransportPeer, WhatAmI, Zid,
};

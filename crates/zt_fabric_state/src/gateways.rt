// Gateways: one is made, and how another sees it.
ghost use Rattle.std.specs.Prelude.{◌≡◌, IfOk, OnOk, OnErr, option_map, string_bytes};
ghost use Rattle.zt_region.specs.South.{plain_peer, plain_south};
ghost use Rattle.zt_model.specs.Fabric.{new_rows, with_gateway};
ghost use Rattle.zt_model.specs.Linking.{peer_of};

use crate::copying::{copy_name, copy_south};
use crate::state::{FabricState, NodeState};
use std::alloc::Global;
use zt_keys::{Key, Memory};
use zt_region::{Admission, Region, SouthConf, TransportPeer, WhatAmI, Zid};
use zt_rollback::RestorableState;
use zt_state::GatewayState;

/// A gateway is made, behind the others. After an error nothing is changed.
pub fn add_gateway<K: Key>(
    alloc: Global,
    s: &mut FabricState<K>,
    mode: WhatAmI,
    zid: Zid,
    regions: &[Region],
    south: &SouthConf,
    name: &Option<String>,
    timeout: u64,
    refuse: &Admission,
) -> Result<(), Memory>
    ensures ok { OnOk result (s.new ≡ with_gateway (record {
      rows = new_rows mode zid regions.now timeout refuse.now.refused.items;
      south = plain_south south.now;
      name = option_map string_bytes name.now;
    }) s.old) }
    ensures err { OnErr result (s.new ≡ s.old) }
{
    let admission = Admission {
        refused: Vec::from_slice(alloc, refuse.refused.as_slice())?,
    };
    let listed = Vec::from_slice(alloc, regions)?;
    let state = GatewayState::new(alloc, mode, zid, listed, timeout, admission);
    s.push_gateway(NodeState {
        kept: RestorableState::new(alloc, state),
        south: copy_south(alloc, south)?,
        name: copy_name(alloc, name)?,
    })
}

/// A gateway as the other end of a link sees it.
pub fn peer_of<K: Key>(alloc: Global, node: &NodeState<K>) -> Result<TransportPeer, Memory>
    ensures { IfOk result (λ peer. plain_peer peer ≡ peer_of node.now) }
{
    let rows = node.rows()?;
    Ok(TransportPeer {
        zid: rows.zid(),
        whatami: rows.mode(),
        links: Vec::new(alloc),
        region_name: copy_name(alloc, &node.name)?,
    })
}

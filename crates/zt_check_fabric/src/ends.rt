// The two ends of a link that is to be.
ghost use Rattle.std.specs.Prelude.{◌≡◌, ◌<◌, ◌^◌, true, IfOk, option_map, string_bytes};
ghost use Rattle.zt_region.specs.South.{plain_peer, plain_south, subregion_count};
ghost use Rattle.zt_protocol.specs.Plain.{plain_call};
ghost use Rattle.zt_model.specs.Linking.{end_region, peer_of};
ghost use Rattle.zt_check_fabric.specs.Linked.{agreed, call_to};

use crate::fabric::ShownNode;
use std::alloc::Global;
use zt_keys::{Key, Memory};
use zt_protocol::Call;
use zt_region::{
    Bound, Region, RegionError, SouthConf, TransportPeer, WhatAmI, compute_region_of,
    compute_transient_bound_of,
};

// Whether the positions of the subregions are ids of regions.
fn has_few_subregions(south: &SouthConf) -> bool
    ensures { result ≡ true → subregion_count south.now < 2 ^ 32 }
{
    match south {
        SouthConf::Auto => true,
        SouthConf::Custom(subregions) => subregions.len() < 4294967296,
    }
}

// An equal name.
fn copy_name(alloc: Global, name: &Option<String>) -> Result<Option<String>, Memory>
    ensures { IfOk result
        (λ copy. option_map string_bytes copy ≡ option_map string_bytes name.now) }
{
    match name {
        None => Ok(None),
        Some(name) => {
            let mut copy = String::new(alloc);
            copy.push_str(name.as_str())?;
            Ok(Some(copy))
        }
    }
}

// A gateway as the other end of a link sees it.
fn peer_of<'a, K: Key>(alloc: Global, node: &ShownNode<'a, K>) -> Result<TransportPeer, Memory>
    ensures { IfOk result (λ peer. plain_peer peer ≡ peer_of node.now) }
{
    let rows = node.rows();
    Ok(TransportPeer {
        zid: rows.zid(),
        whatami: rows.mode(),
        links: Vec::new(alloc),
        region_name: copy_name(alloc, node.name())?,
    })
}

// The region that one gateway puts a face to another in, and that one's bound.
fn agree(
    peer: &TransportPeer,
    beyond: &TransportPeer,
    mode: WhatAmI,
    south: &SouthConf,
    other_mode: WhatAmI,
    other_south: &SouthConf,
) -> Result<(Region, Bound), RegionError>
    requires own { subregion_count south.now < 2 ^ 32 }
    requires other { subregion_count other_south.now < 2 ^ 32 }
    ensures { result
        ≡ agreed (plain_peer peer.now) (plain_peer beyond.now) mode
        (plain_south south.now) other_mode (plain_south other_south.now) }
{
    match compute_transient_bound_of(peer, other_mode, other_south) {
        Ok(bound) => compute_region_of(beyond, mode, south, bound),
        Err(error) => Err(error),
    }
}

/// The region of a gateway's face to another, and that one's bound. The errors are those of
/// regions, and `Memory`, as which too many subregions count.
pub fn end_region<'a, K: Key>(
    alloc: Global,
    own: &ShownNode<'a, K>,
    other: &ShownNode<'a, K>,
) -> Result<Result<(Region, Bound), RegionError>, Memory>
    ensures { IfOk result (λ answer. answer ≡ end_region own.now other.now) }
{
    let peer = peer_of(alloc, own)?;
    let beyond = peer_of(alloc, other)?;
    let south = own.south();
    let other_south = other.south();
    if !has_few_subregions(south) || !has_few_subregions(other_south) {
        return Err(Memory);
    }
    let mode = own.rows().mode();
    let other_mode = other.rows().mode();
    let answer = agree(&peer, &beyond, mode, south, other_mode, other_south);
    Ok(answer)
}

/// The call that opens the face at an end, where the ends agree.
pub fn end_call<'a, K: Key>(
    alloc: Global,
    own: &ShownNode<'a, K>,
    other: &ShownNode<'a, K>,
    first: u32,
) -> Result<Option<Call<K>>, Memory>
    ensures { IfOk result (λ call. option_map plain_call call ≡ call_to own.now other.now first) }
{
    let rows = other.rows();
    match end_region(alloc, own, other)? {
        Ok((region, remote_bound)) => Ok(Some(Call::NewTransport {
            zid: rows.zid(),
            whatami: rows.mode(),
            region,
            remote_bound,
            first,
        })),
        Err(_) => Ok(None),
    }
}

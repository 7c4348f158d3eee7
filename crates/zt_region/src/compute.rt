//! The region of a peer, by the tables of `specs/Tables.antt`.
ghost use Rattle.std.specs.Prelude.{◌≡◌, ◌<◌, ◌^◌};
ghost use Rattle.zt_region.specs.South.{plain_peer, plain_south, subregion_count, transient_region};
ghost use Rattle.zt_region.specs.South.{transient_bound};
ghost use Rattle.zt_region.specs.Tables.{auto_region, agreed_region, region_of, multicast_region};
ghost use Rattle.zt_region.specs.Tables.{multicast_region_of};

use crate::matching::first_match_of;
use crate::region::{Bound, Region, RegionError, SouthConf, TransportPeer, WhatAmI};

/// The bound of the region that the own configuration gives the peer, which a node tells the peer
/// before the two agree: `None` where regions are found automatically. `mode` is the own mode. The
/// one error is RouterUnderNonRouter, where a router matches a subregion of a node that is no
/// router.
pub fn compute_transient_bound_of(
    peer: &TransportPeer,
    mode: WhatAmI,
    south: &SouthConf,
) -> Result<Option<Bound>, RegionError>
    requires { subregion_count south.now < 2 ^ 32 }
    ensures { result ≡ transient_bound (plain_peer peer.now) mode (plain_south south.now) }
{
    match transient_region_of(peer, mode, south)? {
        None => Ok(None),
        Some(region) => Ok(Some(region.bound())),
    }
}

/// The region into which a node of this mode puts the peer, and the bound of the region in which
/// the peer has the node. `transient_remote_bound` is the transient bound that the peer found for
/// the node. The errors are those of the transient region, of the automatic answer, and of two
/// sides that contradict each other.
pub fn compute_region_of(
    peer: &TransportPeer,
    mode: WhatAmI,
    south: &SouthConf,
    transient_remote_bound: Option<Bound>,
) -> Result<(Region, Bound), RegionError>
    requires { subregion_count south.now < 2 ^ 32 }
    ensures { result
        ≡ region_of (plain_peer peer.now) mode (plain_south south.now) transient_remote_bound }
{
    let own = transient_region_of(peer, mode, south)?;
    agreed_region_of(mode, peer.whatami, own, transient_remote_bound)
}

/// The region of a multicast group, for a node of this mode. A client has none: MulticastLimit.
pub fn compute_multicast_region(mode: WhatAmI) -> Result<Region, RegionError>
    ensures { result ≡ multicast_region mode }
{
    match mode {
        WhatAmI::Peer => Ok(Region::North),
        WhatAmI::Router => Ok(Region::default_south(WhatAmI::Peer)),
        WhatAmI::Client => Err(RegionError::MulticastLimit),
    }
}

/// The region of a member of a multicast group, and the bound of the region in which the member has
/// the node; `mode` is the node's mode. MulticastLimit but for two peers and for a peer and a
/// router.
pub fn compute_multicast_region_of(
    remote: WhatAmI,
    mode: WhatAmI,
) -> Result<(Region, Bound), RegionError>
    ensures { result ≡ multicast_region_of mode remote }
{
    match (mode, remote) {
        (WhatAmI::Peer, WhatAmI::Peer) => Ok((Region::North, Bound::North)),
        (WhatAmI::Router, WhatAmI::Peer) => Ok((Region::default_south(remote), Bound::North)),
        (WhatAmI::Peer, WhatAmI::Router) => Ok((Region::North, Bound::South)),
        _ => Err(RegionError::MulticastLimit),
    }
}

/// The region that the own configuration gives the peer, `None` where it leaves that to the modes.
fn transient_region_of(
    peer: &TransportPeer,
    mode: WhatAmI,
    south: &SouthConf,
) -> Result<Option<Region>, RegionError>
    requires { subregion_count south.now < 2 ^ 32 }
    ensures { result ≡ transient_region (plain_peer peer.now) mode (plain_south south.now) }
{
    let SouthConf::Custom(subregions) = south else {
        return Ok(None);
    };
    let Some(position) = first_match_of(subregions, peer) else {
        return Ok(Some(Region::North));
    };
    if peer.whatami == WhatAmI::Router && mode != WhatAmI::Router {
        return Err(RegionError::RouterUnderNonRouter);
    }
    let id = position as u32;
    Ok(Some(Region::South {
        id,
        mode: peer.whatami,
    }))
}

fn automatic_region_of(own: WhatAmI, remote: WhatAmI) -> Result<(Region, Bound), RegionError>
    ensures { result ≡ auto_region own remote }
{
    use WhatAmI::{Client, Peer, Router};
    match (own, remote) {
        (Router, Peer | Client) | (Peer, Client) => Ok((
            Region::default_south(remote),
            Bound::North,
        )),
        (Router, Router) | (Peer, Peer) => Ok((Region::North, Bound::North)),
        (Peer | Client, Router) | (Client, Peer) => Ok((Region::North, Bound::South)),
        (Client, Client) => Err(RegionError::ClientClient),
    }
}

/// What the two sides come to: `own` is the own side's transient region, `remote_bound` the
/// remote's transient bound.
fn agreed_region_of(
    mode: WhatAmI,
    remote_mode: WhatAmI,
    own: Option<Region>,
    remote_bound: Option<Bound>,
) -> Result<(Region, Bound), RegionError>
    ensures { result ≡ agreed_region mode remote_mode own remote_bound }
{
    match (own, remote_bound) {
        (None, None) => automatic_region_of(mode, remote_mode),
        (None, Some(Bound::North)) => match automatic_region_of(mode, remote_mode)? {
            (region, Bound::North) => Ok((region, Bound::North)),
            (_, Bound::South) => Err(RegionError::RemoteConflictsWithAuto),
        },
        (Some(Region::North), None) => match automatic_region_of(mode, remote_mode)? {
            (Region::North, bound) => Ok((Region::North, bound)),
            _ => Err(RegionError::AutoConflictsWithOwn),
        },
        (Some(Region::North), Some(Bound::North)) if mode != remote_mode => {
            Err(RegionError::NorthModesDiffer)
        }
        (Some(Region::North), Some(Bound::North)) => Ok((Region::North, Bound::North)),
        (None | Some(Region::North), Some(Bound::South)) => Ok((Region::North, Bound::South)),
        (Some(south), None | Some(Bound::North)) => Ok((south, Bound::North)),
        (Some(_), Some(Bound::South)) => Err(RegionError::SouthSouth),
    }
}

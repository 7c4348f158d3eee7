// The faces by the routers behind them.
ghost use Rattle.std.specs.Prelude.{◌≡◌, ◌&&◌, false, IfNone, IfOk, IfSome, OnErr, OnOk};
ghost use Rattle.zt_region.specs.Region.{region_eq, zid_eq};
ghost use Rattle.zt_faces.specs.Routers.{HasLess, HasMore, HasNoneFrom, HasNoneOf, IsFirstOf};
ghost use Rattle.zt_faces.specs.Routers.{IsLeastFrom, IsNumberOf, is_kept, standing_of};

use std::collections::BTreeSet;
use zt_face::FaceState;
use zt_keys::{Key, Memory};
use zt_region::{Region, WhatAmI, Zid};

/// A face by the router behind it: those of one router in a region stand side by side, in order of
/// number.
#[derive(Clone, Copy, PartialEq, Eq, PartialOrd, Ord, Debug)]
pub struct Standing {
    pub region: Region,
    pub zid: Zid,
    pub number: u32,
}

/// Whether the region may be a router region: the places of no others are kept.
pub(crate) fn is_kept(region: Region) -> bool
    ensures { result ≡ is_kept region }
{
    matches!(
        region,
        Region::North
            | Region::South {
                mode: WhatAmI::Router,
                ..
            }
    )
}

/// Where a face stands.
pub(crate) fn standing_of<K: Key>(f: &FaceState<K>) -> Standing
    ensures { result ≡ standing_of f.now }
{
    Standing {
        region: f.region(),
        zid: f.zid(),
        number: f.number(),
    }
}

/// Adds a face. After an error nothing changes.
pub(crate) fn add_standing(
    routers: &mut BTreeSet<Standing>,
    standing: Standing,
) -> Result<(), Memory>
    ensures ok { OnOk result (HasMore standing routers.old.keys routers.new.keys) }
    ensures err { OnErr result (routers.new.keys ≡ routers.old.keys) }
{
    if is_kept(standing.region) {
        routers.insert(standing)?;
    }
    Ok(())
}

/// Removes a face.
pub(crate) fn drop_standing(routers: &mut BTreeSet<Standing>, standing: Standing)
    ensures { HasLess standing routers.old.keys routers.new.keys }
{
    if is_kept(standing.region) {
        routers.remove(&standing);
    }
}

// The first that isn't below another.
fn first_from(routers: &BTreeSet<Standing>, lowest: Standing) -> Option<&Standing>
    ensures some { IfSome result (λ s. IsLeastFrom lowest routers.now.keys s.now) }
    ensures none { IfNone result (HasNoneFrom lowest routers.now.keys) }
{
    routers.range(lowest..).next()
}

// The number of a face, if it is of the region and the router stands behind it.
fn number_if_of(standing: &Standing, region: Region, zid: Zid) -> Option<u32>
    ensures some { IfSome result (λ number. IsNumberOf region zid number standing.now) }
    ensures none { IfNone result
        ((region_eq standing.now.region region && zid_eq standing.now.zid zid) ≡ false) }
{
    if standing.region == region && standing.zid == zid {
        Some(standing.number)
    } else {
        None
    }
}

/// The number of the first face of a region behind which the router stands. Found by binary search.
pub(crate) fn first_of_router(routers: &BTreeSet<Standing>, region: Region, zid: Zid) -> Option<u32>
    ensures found { IfSome result (λ number. IsFirstOf region zid number routers.now.keys) }
    ensures none { IfNone result (HasNoneOf region zid routers.now.keys) }
{
    let lowest = Standing {
        region,
        zid,
        number: 0,
    };
    match first_from(routers, lowest) {
        Some(standing) => number_if_of(standing, region, zid),
        None => None,
    }
}

/// The same places.
pub(crate) fn copy_standings(routers: &BTreeSet<Standing>) -> Result<BTreeSet<Standing>, Memory>
    ensures { IfOk result (λ copy. copy.keys ≡ routers.now.keys) }
{
    Ok(routers.clone()?)
}

// Tests of the two ends of a link that is to be.
ghost use Rattle.std.specs.Prelude.{◌≡◌, ◌&&◌, Ok, Err, IfOk, not, length};
ghost use Rattle.zt_region.specs.Region.{is_north};
ghost use Rattle.zt_model.specs.Fabric.{is_region_of};
ghost use Rattle.zt_model.specs.Hat.{hat_of, north_hat};
ghost use Rattle.zt_model.specs.Linking.{climbs_to, is_answer};
ghost use Rattle.zt_model.specs.Refusals.{is_north_taken};

use crate::linking::{climbs_to, has_one_north};
use zt_fabric_state::{FabricState, NodeState};
use zt_hats::hat_of;
use zt_keys::{Key, Memory};
use zt_refusals::{has_region, is_north_taken};
use zt_region::{Bound, Region, RegionError};
use zt_state::GatewayState;

/// Whether the region of an end isn't one of its gateway.
pub(crate) fn names_no_region<K: Key>(
    node: &NodeState<K>,
    answer: &Result<(Region, Bound), RegionError>,
) -> Result<bool, Memory>
    ensures { IfOk result (λ names. names ≡ is_answer answer.now
        (λ region bound. not (is_region_of node.now.rows.regions region))) }
{
    let rows = node.rows()?;
    match answer {
        Ok((region, _)) => Ok(!has_region(rows, *region)),
        Err(_) => Ok(false),
    }
}

/// Whether the face of an end doesn't fit its region.
pub(crate) fn misfits<K: Key>(
    node: &NodeState<K>,
    answer: &Result<(Region, Bound), RegionError>,
    other: &NodeState<K>,
) -> Result<bool, Memory>
    ensures { IfOk result (λ misfits. misfits ≡ is_answer answer.now
        (λ region bound.
        not ((hat_of node.now.rows.mode region).fits region other.now.rows.mode bound))) }
{
    let own = node.rows()?;
    let remote = other.rows()?;
    match answer {
        Ok((region, bound)) => {
            Ok(!hat_of(own.mode(), *region).fits(*region, remote.mode(), *bound))
        }
        Err(_) => Ok(false),
    }
}

/// Whether the region of an end has its one face already.
pub(crate) fn takes_north<K: Key>(
    node: &NodeState<K>,
    answer: &Result<(Region, Bound), RegionError>,
) -> Result<bool, Memory>
    ensures { IfOk result (λ takes. takes
        ≡ is_answer answer.now (λ region bound. is_north_taken region node.now.rows)) }
{
    let rows = node.rows()?;
    match answer {
        Ok((region, _)) => Ok(is_north_taken(rows, *region)),
        Err(_) => Ok(false),
    }
}

// Whether the region is north, of a gateway that has one face there at most.
fn is_climbed<K: Key>(rows: &GatewayState<K>, region: Region) -> bool
    ensures { result ≡ ((north_hat rows.now.mode).has_one_face && is_north region) }
{
    has_one_north(rows) && region == Region::North
}

/// Whether an end would close a loop of gateways that have one face each to the north.
pub(crate) fn closes_loop<K: Key>(
    s: &FabricState<K>,
    node: &NodeState<K>,
    answer: &Result<(Region, Bound), RegionError>,
    beyond: u32,
    gateway: u32,
) -> Result<bool, Memory>
    ensures { IfOk result (λ closes. closes ≡ is_answer answer.now (λ region bound.
        (north_hat node.now.rows.mode).has_one_face
        && (is_north region && climbs_to (length s.now.gateways) s.now beyond gateway))) }
{
    let rows = node.rows()?;
    match answer {
        Ok((region, _)) => {
            if !is_climbed(rows, *region) {
                return Ok(false);
            }
            climbs_to(s, s.gateways().len(), beyond, gateway)
        }
        Err(_) => Ok(false),
    }
}

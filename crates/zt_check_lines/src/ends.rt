// What a link that is to be made asks of its two ends.
ghost use Rattle.std.specs.Prelude.{◌≡◌};
ghost use Rattle.zt_check_lines.specs.Lines.{closes_loop_at, is_taken, misfits, names_no_region};

use crate::loops::climbs_to;
use zt_check_causes::{fits, has_one_north, is_north_taken, is_region_of};
use zt_check_fabric::{ShownFabric, ShownNode};
use zt_keys::Key;
use zt_region::{Bound, Region, RegionError};

/// Whether the region of an end isn't one of its gateway.
pub(crate) fn names_no_region<'a, K: Key>(
    node: &ShownNode<'a, K>,
    answer: &Result<(Region, Bound), RegionError>,
) -> bool
    ensures { result ≡ names_no_region node.now answer.now }
{
    match answer {
        Ok((region, _)) => !is_region_of(node.rows().regions(), *region),
        Err(_) => false,
    }
}

/// Whether the other gateway may not have a face of the region of an end.
pub(crate) fn misfits<'a, K: Key>(
    node: &ShownNode<'a, K>,
    other: &ShownNode<'a, K>,
    answer: &Result<(Region, Bound), RegionError>,
) -> bool
    ensures { result ≡ misfits node.now other.now answer.now }
{
    match answer {
        Ok((region, bound)) => { !fits(node.rows().mode(), *region, other.rows().mode(), *bound) }
        Err(_) => false,
    }
}

/// Whether the region of an end has its one face.
pub(crate) fn is_taken<'a, K: Key>(
    node: &ShownNode<'a, K>,
    answer: &Result<(Region, Bound), RegionError>,
) -> bool
    ensures { result ≡ is_taken node.now answer.now }
{
    match answer {
        Ok((region, _)) => is_north_taken(node.rows(), *region),
        Err(_) => false,
    }
}

/// Whether an end would close a loop of gateways that have one face to the north.
pub(crate) fn closes_loop<'a, K: Key>(
    fabric: &ShownFabric<'a, K>,
    gateway: u32,
    node: &ShownNode<'a, K>,
    beyond: u32,
    answer: &Result<(Region, Bound), RegionError>,
) -> bool
    ensures { result ≡ closes_loop_at fabric.now gateway node.now beyond answer.now }
{
    match answer {
        Ok((region, _)) => {
            has_one_north(node.rows().mode())
                && *region == Region::North
                && climbs_to(fabric, beyond, gateway)
        }
        Err(_) => false,
    }
}

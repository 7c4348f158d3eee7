// Why a link isn't made.
ghost use Rattle.std.specs.Prelude.{◌≡◌, ◌+◌, ◌||◌, IfOk, length, nat_le};
ghost use Rattle.zt_protocol.specs.Plain.{Link};
ghost use Rattle.zt_model.specs.Fabric.{is_full};
ghost use Rattle.zt_model.specs.Refusals.{GREATEST_NUMBER};
ghost use Rattle.zt_check_lines.specs.Lines.{ends_cause, line_cause};

use crate::ends::{closes_loop, is_taken, misfits, names_no_region};
use crate::lines::is_full;
use std::alloc::Global;
use zt_check_fabric::{ShownFabric, ShownNode, end_region};
use zt_keys::{Key, Memory};
use zt_protocol::Refusal;
use zt_region::{Bound, Region, RegionError};

// Whether all numbers of faces or links are given out.
fn lacks_numbers<'a, K: Key>(fabric: &ShownFabric<'a, K>) -> bool
    ensures { result
        ≡ (nat_le GREATEST_NUMBER (length fabric.now.faces + 1) || is_full fabric.now.links) }
{
    fabric.faces().len() >= u32::MAX as usize - 1 || is_full(fabric.links().len())
}

// Why a link isn't made between two gateways, by the regions of its ends.
#[tactic(auto, unfolding(crate::specs::Lines::ends_cause, zt_model::specs::Refusals::first_cause))]
fn ends_cause<'a, K: Key>(
    fabric: &ShownFabric<'a, K>,
    one: u32,
    near: &ShownNode<'a, K>,
    going: &Result<(Region, Bound), RegionError>,
    two: u32,
    far: &ShownNode<'a, K>,
    returning: &Result<(Region, Bound), RegionError>,
) -> Option<Refusal>
    ensures { result
        ≡ ends_cause fabric.now one near.now going.now two far.now returning.now }
{
    if names_no_region(near, going) || names_no_region(far, returning) {
        return Some(Refusal::NoSuchRegion);
    }
    if going.is_err()
        || returning.is_err()
        || misfits(near, far, going)
        || misfits(far, near, returning)
    {
        return Some(Refusal::RegionConflict);
    }
    if is_taken(near, going) || is_taken(far, returning) {
        return Some(Refusal::NorthTaken);
    }
    if closes_loop(fabric, one, near, two, going) || closes_loop(fabric, two, far, one, returning) {
        return Some(Refusal::WouldLoop);
    }
    if lacks_numbers(fabric) {
        return Some(Refusal::NumbersSpent);
    }
    None
}

/// Why a link isn't made.
pub(crate) fn link_cause<'a, K: Key>(
    alloc: Global,
    fabric: &ShownFabric<'a, K>,
    one: u32,
    two: u32,
    first: u32,
    back: u32,
) -> Result<Option<Refusal>, Memory>
    ensures { IfOk result (λ cause. cause
        ≡ line_cause K.cmp K.matching (Link one two first back) fabric.now) }
{
    let Some(near) = fabric.node(one) else {
        return Ok(Some(Refusal::UnknownGateway));
    };
    let Some(far) = fabric.node(two) else {
        return Ok(Some(Refusal::UnknownGateway));
    };
    let going = end_region(alloc, near, far)?;
    let returning = end_region(alloc, far, near)?;
    Ok(ends_cause(fabric, one, near, &going, two, far, &returning))
}

// Why a link isn't made.
ghost use Rattle.std.specs.Prelude.{◌≡◌, ◌+◌, ◌||◌, nat_le, length, Some, IfOk};
ghost use Rattle.zt_protocol.specs.Plain.{Link as LinkLine};
ghost use Rattle.zt_laws.specs.Order.{FabricIsInOrder};
ghost use Rattle.zt_model.specs.Fabric.{is_full, line_spends_ids};
ghost use Rattle.zt_model.specs.Linking.{end_region};
ghost use Rattle.zt_model.specs.Lists.{nth};
ghost use Rattle.zt_model.specs.Refusals.{GREATEST_NUMBER};
ghost use Rattle.zt_links.specs.Lines.{cause_of_line, closes_loop_at, later_cause, regions_cause};

use crate::causes::is_full;
use crate::ends::{closes_loop, misfits, names_no_region, takes_north};
use crate::linking::{end_call, end_region, spends_for_link};
use std::alloc::Global;
use zt_fabric_state::{FabricState, NodeState, member_at};
use zt_keys::{Key, Memory};
use zt_protocol::Refusal;
use zt_region::{Bound, Region, RegionError};

/// Why the faces of a link's two ends are refused, by the regions that the ends come to.
fn regions_cause<K: Key>(
    a: &NodeState<K>,
    near: &Result<(Region, Bound), RegionError>,
    b: &NodeState<K>,
    far: &Result<(Region, Bound), RegionError>,
) -> Result<Option<Refusal>, Memory>
    ensures { IfOk result (λ cause. cause ≡ regions_cause a.now near.now b.now far.now) }
{
    if names_no_region(a, near)? || names_no_region(b, far)? {
        return Ok(Some(Refusal::NoSuchRegion));
    }
    if near.is_err() || far.is_err() || misfits(a, near, b)? || misfits(b, far, a)? {
        return Ok(Some(Refusal::RegionConflict));
    }
    if takes_north(a, near)? || takes_north(b, far)? {
        return Ok(Some(Refusal::NorthTaken));
    }
    Ok(None)
}

/// Whether all numbers of faces or links are given out, so that a link can't be made.
fn lacks_numbers<K: Key>(s: &FabricState<K>) -> bool
    ensures { result ≡ (nat_le GREATEST_NUMBER (length s.now.faces + 1) || is_full s.now.links) }
{
    s.places().len() >= u32::MAX as usize - 1 || is_full(s.links().len())
}

/// Whether one of the ends closes a loop of client gateways.
fn closes_loops<K: Key>(
    s: &FabricState<K>,
    one: u32,
    a: &NodeState<K>,
    near: &Result<(Region, Bound), RegionError>,
    two: u32,
    b: &NodeState<K>,
    far: &Result<(Region, Bound), RegionError>,
) -> Result<bool, Memory>
    ensures { IfOk result (λ closes. closes
        ≡ (closes_loop_at s.now a.now near.now two one
        || closes_loop_at s.now b.now far.now one two)) }
{
    Ok(closes_loop(s, a, near, two, one)? || closes_loop(s, b, far, one, two)?)
}

/// Whether the calls that open the faces of a link need more ids than are left.
fn spends_at_ends<K: Key>(
    alloc: Global,
    s: &FabricState<K>,
    one: u32,
    a: &NodeState<K>,
    near: &Result<(Region, Bound), RegionError>,
    first: u32,
    two: u32,
    b: &NodeState<K>,
    far: &Result<(Region, Bound), RegionError>,
    back: u32,
) -> Result<bool, Memory>
    requires near_node { nth one s.now.gateways ≡ Some a.now }
    requires far_node { nth two s.now.gateways ≡ Some b.now }
    requires near { near.now ≡ end_region a.now b.now }
    requires far { far.now ≡ end_region b.now a.now }
    requires order { FabricIsInOrder K.cmp K.matching s.now }
    ensures { IfOk result (λ spends. spends
        ≡ line_spends_ids K.cmp K.matching (LinkLine one two first back) s.now) }
{
    let forth = end_call(near, b, first)?;
    let answer = end_call(far, a, back)?;
    match (forth, answer) {
        (Some(forth), Some(answer)) => spends_for_link(alloc, s, one, &forth, two, &answer),
        _ => Err(Memory),
    }
}

/// Why a link between two gateways isn't made, where the regions of its ends refuse nothing.
fn later_cause<K: Key>(
    alloc: Global,
    s: &FabricState<K>,
    one: u32,
    a: &NodeState<K>,
    near: &Result<(Region, Bound), RegionError>,
    first: u32,
    two: u32,
    b: &NodeState<K>,
    far: &Result<(Region, Bound), RegionError>,
    back: u32,
) -> Result<Option<Refusal>, Memory>
    requires near_node { nth one s.now.gateways ≡ Some a.now }
    requires far_node { nth two s.now.gateways ≡ Some b.now }
    requires near { near.now ≡ end_region a.now b.now }
    requires far { far.now ≡ end_region b.now a.now }
    requires order { FabricIsInOrder K.cmp K.matching s.now }
    ensures { IfOk result (λ cause. cause
        ≡ later_cause K.cmp K.matching one two first back s.now a.now near.now b.now far.now) }
{
    if closes_loops(s, one, a, near, two, b, far)? {
        return Ok(Some(Refusal::WouldLoop));
    }
    if spends_at_ends(alloc, s, one, a, near, first, two, b, far, back)? {
        return Ok(Some(Refusal::IdsSpent));
    }
    if lacks_numbers(s) {
        return Ok(Some(Refusal::NumbersSpent));
    }
    Ok(None)
}

/// Why a link between two gateways isn't made.
fn ends_cause<K: Key>(
    alloc: Global,
    s: &FabricState<K>,
    one: u32,
    a: &NodeState<K>,
    first: u32,
    two: u32,
    b: &NodeState<K>,
    back: u32,
) -> Result<Option<Refusal>, Memory>
    requires near_node { nth one s.now.gateways ≡ Some a.now }
    requires far_node { nth two s.now.gateways ≡ Some b.now }
    requires order { FabricIsInOrder K.cmp K.matching s.now }
    ensures { IfOk result (λ cause. cause
        ≡ cause_of_line K.cmp K.matching (LinkLine one two first back) s.now) }
{
    let near = end_region(alloc, a, b)?;
    let far = end_region(alloc, b, a)?;
    if let Some(cause) = regions_cause(a, &near, b, &far)? {
        return Ok(Some(cause));
    }
    later_cause(alloc, s, one, a, &near, first, two, b, &far, back)
}

/// Why a link isn't made.
pub(crate) fn link_cause<K: Key>(
    alloc: Global,
    s: &FabricState<K>,
    one: u32,
    two: u32,
    first: u32,
    back: u32,
) -> Result<Option<Refusal>, Memory>
    requires { FabricIsInOrder K.cmp K.matching s.now }
    ensures { IfOk result (λ cause. cause
        ≡ cause_of_line K.cmp K.matching (LinkLine one two first back) s.now) }
{
    let Some(a) = member_at(s.gateways(), one) else {
        return Ok(Some(Refusal::UnknownGateway));
    };
    let Some(b) = member_at(s.gateways(), two) else {
        return Ok(Some(Refusal::UnknownGateway));
    };
    ends_cause(alloc, s, one, a, first, two, b, back)
}

// The two ends of a link: the regions of their faces, and the calls that open them.
ghost use Rattle.std.specs.Prelude.{◌≡◌, ◌<◌, ◌≤◌, ◌^◌, ◌||◌, ◌+◌, ◌++◌, false, true, length, map};
ghost use Rattle.std.specs.Prelude.{Some, None, Ok, Err, IfOk, OnErr, OnOk, option_map};
ghost use Rattle.zt_model.specs.Fabric.{call_at, is_unknown_gateway, sorted_by_face};
ghost use Rattle.zt_laws.specs.Order.{FabricIsInOrder};
ghost use Rattle.zt_laws.specs.Sound.{opens_face, rows_after_call};
ghost use Rattle.zt_region.specs.Region.{is_north};
ghost use Rattle.zt_protocol.specs.Plain.{NewTransport, plain_call};
ghost use Rattle.zt_region.specs.South.{plain_peer, plain_south, subregion_count};
ghost use Rattle.zt_link_queues.specs.Found.{AreBelow};
ghost use Rattle.zt_fabric_state.specs.Changes.{IsAfter, row_after, undone, without_last_place};
ghost use Rattle.zt_links.specs.Lines.{agreed, joined, opened_by_call, opened_end};
ghost use Rattle.zt_links.specs.Lines.{said_by_opening};
ghost use Rattle.zt_model.specs.Hat.{north_hat};
ghost use Rattle.zt_model.specs.Linking.{climbs_to, with_link, end_region, gateway_above};
ghost use Rattle.zt_model.specs.Linking.{gateway_beyond};
ghost use Rattle.zt_model.specs.Lists.{first_where, is_some_and, nth};
ghost use Rattle.zt_model.specs.Refusals.{spends_ids};

use std::alloc::Global;
use zt_calls::carry_out;
use zt_fabric_state::{
    FabricState, NodeState, Turned, hear_call, member_at, member_place, next_face, peer_of, settle,
    settle_apart, sort_by_face, undo_opening,
};
use zt_hats::north_hat;
use zt_keys::{Key, Memory};
use zt_protocol::{Call, Sent};
use zt_refusals::spends_ids;
use zt_region::{
    Bound, Region, RegionError, SouthConf, TransportPeer, WhatAmI, compute_region_of,
    compute_transient_bound_of,
};
use zt_state::GatewayState;

/// Whether the positions of the subregions are ids of regions.
fn has_few_subregions(south: &SouthConf) -> bool
    ensures { result ≡ true → subregion_count south.now < 2 ^ 32 }
{
    match south {
        SouthConf::Auto => true,
        SouthConf::Custom(subregions) => subregions.len() < 4294967296,
    }
}

/// What the two ends of a link come to, for one of them.
fn agree(
    peer: &TransportPeer,
    beyond: &TransportPeer,
    mode: WhatAmI,
    south: &SouthConf,
    other_mode: WhatAmI,
    other_south: &SouthConf,
) -> Result<(Region, Bound), RegionError>
    requires own { subregion_count south.now < 2 ^ 32 }
    requires other { subregion_count other_south.now < 2 ^ 32 }
    ensures { result
        ≡ agreed (plain_peer peer.now) (plain_peer beyond.now) mode
        (plain_south south.now) other_mode (plain_south other_south.now) }
{
    match compute_transient_bound_of(peer, other_mode, other_south) {
        Ok(bound) => compute_region_of(beyond, mode, south, bound),
        Err(error) => Err(error),
    }
}

/// The region of a gateway's face to another, and that one's bound. That there are too many
/// subregions counts as out of memory.
pub(crate) fn end_region<K: Key>(
    alloc: Global,
    own: &NodeState<K>,
    other: &NodeState<K>,
) -> Result<Result<(Region, Bound), RegionError>, Memory>
    ensures { IfOk result (λ answer. answer ≡ end_region own.now other.now) }
{
    let peer = peer_of(alloc, own)?;
    let beyond = peer_of(alloc, other)?;
    let south = own.south();
    let other_south = other.south();
    if !has_few_subregions(south) || !has_few_subregions(other_south) {
        return Err(Memory);
    }
    let mode = own.rows()?.mode();
    let other_mode = other.rows()?.mode();
    let answer = agree(&peer, &beyond, mode, south, other_mode, other_south);
    Ok(answer)
}

/// The call that opens the face at an end.
pub(crate) fn end_call<K: Key>(
    answer: &Result<(Region, Bound), RegionError>,
    other: &NodeState<K>,
    first: u32,
) -> Result<Option<Call<K>>, Memory>
    ensures { IfOk result (λ call. option_map plain_call call ≡ elim answer.now [
      | Ok given ↦ Some (NewTransport other.now.rows.zid other.now.rows.mode given.0 given.1 first)
      | Err e ↦ None
    ]) }
{
    let rows = other.rows()?;
    match answer {
        Ok((region, remote_bound)) => Ok(Some(Call::NewTransport {
            zid: rows.zid(),
            whatami: rows.mode(),
            region: *region,
            remote_bound: *remote_bound,
            first,
        })),
        Err(_) => Ok(None),
    }
}

/// The gateway at the other end of a face's open link.
fn gateway_beyond<K: Key>(s: &FabricState<K>, face: u32) -> Option<u32>
    ensures { result ≡ gateway_beyond s.now face }
{
    let link = s.open_link_of(face)?;
    let other = if face == link.one() {
        link.two()
    } else {
        link.one()
    };
    match s.place_at(other) {
        Some(place) => Some(place.gateway()),
        None => None,
    }
}

/// The number of the first face to the north.
fn north_face<K: Key>(rows: &GatewayState<K>) -> Option<u32>
    ensures { result
        ≡ option_map (λ f. f.number) (first_where (λ f. is_north f.region) rows.now.faces) }
{
    rows.north().first().copied()
}

/// Whether the gateway has one face at most to the north. By these faces others climb.
pub(crate) fn has_one_north<K: Key>(rows: &GatewayState<K>) -> bool
    ensures { result ≡ (north_hat rows.now.mode).has_one_face }
{
    north_hat(rows.mode()).has_one_face()
}

/// The gateway above one that has one face to the north, by its link.
fn gateway_above<K: Key>(s: &FabricState<K>, gateway: u32) -> Result<Option<u32>, Memory>
    ensures { IfOk result (λ above. above ≡ gateway_above s.now gateway) }
{
    let Some(node) = member_at(s.gateways(), gateway) else {
        return Ok(None);
    };
    let rows = node.rows()?;
    if !has_one_north(rows) {
        return Ok(None);
    }
    match north_face(rows) {
        None => Ok(None),
        Some(face) => Ok(gateway_beyond(s, s.places().number(gateway, face))),
    }
}

/// Whether a gateway is another or lies above it, at most so many links away.
pub(crate) fn climbs_to<K: Key>(
    s: &FabricState<K>,
    most: usize,
    from: u32,
    to: u32,
) -> Result<bool, Memory>
    ensures { IfOk result (λ climbs. climbs ≡ climbs_to most s.now from to) }
{
    let mut left = most;
    let mut at = from;
    while left > 0 {
        if at == to {
            return Ok(true);
        }
        match gateway_above(s, at)? {
            None => return Ok(false),
            Some(above) => at = above,
        }
        left -= 1;
    }
    Ok(at == to)
}

/// Opens the face at an end of a link, whose gateway exists. After an error nothing is changed.
fn open_end<K: Key>(
    alloc: Global,
    s: &mut FabricState<K>,
    gateway: u32,
    call: &Call<K>,
) -> Result<Turned<K>, Memory>
    requires opens { opens_face (plain_call call.now) ≡ true }
    requires there { is_unknown_gateway s.old gateway ≡ false }
    requires order { FabricIsInOrder K.cmp K.matching s.old }
    ensures says { IfOk result (λ turned. turned.printed.items
        ≡ said_by_opening K.cmp K.matching gateway (plain_call call.now) s.old) }
    ensures does { OnOk result
        (s.new ≡ opened_end K.cmp K.matching gateway (plain_call call.now) s.old) }
    ensures links { OnOk result (s.new.links ≡ s.old.links) }
    ensures faces { OnOk result (length s.new.faces ≡ length s.old.faces + 1) }
    ensures free { OnOk result (AreBelow (length s.new.faces) s.new.links) }
    ensures after { IfOk result
        (λ turned. IsAfter K.cmp K.matching turned.former turned.gateway s.new) }
    ensures back { IfOk result (λ turned.
        without_last_place (undone turned.former turned.gateway s.new) ≡ s.old) }
    ensures err { OnErr result (s.new ≡ s.old) }
{
    let Some(at) = member_place(s.gateways(), gateway) else {
        unreachable!();
    };
    let face = next_face(s.gateways()[at].rows()?)?;
    s.push_end(alloc, gateway, face)?;
    match hear_call(alloc, s, gateway, call) {
        Ok(turned) => Ok(turned),
        Err(error) => {
            s.pop_place();
            Err(error)
        }
    }
}

/// The number of the face that is placed next. That it has none counts as out of memory.
fn next_number(count: usize) -> Result<u32, Memory>
    ensures { IfOk result (λ number. number ≡ count + 1) }
{
    if count >= u32::MAX as usize {
        return Err(Memory);
    }
    Ok(count as u32 + 1)
}

/// Makes a link between two faces that are open, and what is said then waits. After an error
/// nothing is changed.
fn join<K: Key>(
    alloc: Global,
    s: &mut FabricState<K>,
    face: u32,
    other: u32,
    mut first: Vec<Sent<K>>,
    mut second: Vec<Sent<K>>,
) -> Result<Vec<Sent<K>>, Memory>
    requires below { AreBelow face s.old.links }
    requires rising { face < other }
    requires placed { other ≤ length s.old.faces }
    ensures says { IfOk result (λ sent. sent.items ≡ sorted_by_face (first.items ++ second.items)) }
    ensures does { IfOk result (λ sent. s.new ≡ joined face other sent.items s.old) }
    ensures err { OnErr result (s.new ≡ s.old) }
{
    first.append(&mut second)?;
    let sent = sort_by_face(first)?;
    s.push_link(face, other)?;
    match s.turn_waiting(alloc, None, sent.as_slice()) {
        Ok(()) => Ok(sent),
        Err(error) => {
            s.pop_link();
            Err(error)
        }
    }
}

/// Opens the second face of a link, and makes the link. After an error nothing is changed.
fn open_other<K: Key>(
    alloc: Global,
    s: &mut FabricState<K>,
    face: u32,
    other: u32,
    gateway: u32,
    call: &Call<K>,
    first: Vec<Sent<K>>,
) -> Result<Vec<Sent<K>>, Memory>
    requires opens { opens_face (plain_call call.now) ≡ true }
    requires there { is_unknown_gateway s.old gateway ≡ false }
    requires below { AreBelow face s.old.links }
    requires rising { face < other }
    requires placed { other ≤ length s.old.faces + 1 }
    requires order { FabricIsInOrder K.cmp K.matching s.old }
    ensures says { IfOk result (λ sent. sent.items ≡ sorted_by_face
        (first.items ++ said_by_opening K.cmp K.matching gateway (plain_call call.now) s.old)) }
    ensures does { IfOk result (λ sent. s.new
        ≡ joined face other sent.items
        (opened_end K.cmp K.matching gateway (plain_call call.now) s.old)) }
    ensures err { OnErr result (s.new ≡ s.old) }
{
    let turned = open_end(alloc, s, gateway, call)?;
    match join(alloc, s, face, other, first, turned.printed) {
        Ok(sent) => {
            settle(s, turned.gateway, turned.former);
            Ok(sent)
        }
        Err(error) => {
            undo_opening(s, turned.gateway, turned.former);
            Err(error)
        }
    }
}

/// Opens the faces of a link between two gateways, one after the other, and makes the link. After
/// an error nothing is changed.
pub(crate) fn make_link<K: Key>(
    alloc: Global,
    s: &mut FabricState<K>,
    one: u32,
    forth: &Call<K>,
    two: u32,
    back: &Call<K>,
) -> Result<Vec<Sent<K>>, Memory>
    requires opens_forth { opens_face (plain_call forth.now) ≡ true }
    requires opens_back { opens_face (plain_call back.now) ≡ true }
    requires there_one { is_unknown_gateway s.old one ≡ false }
    requires there_two { is_unknown_gateway s.old two ≡ false }
    requires order { FabricIsInOrder K.cmp K.matching s.old }
    requires order_between { FabricIsInOrder K.cmp K.matching
        (opened_by_call K.cmp K.matching one (plain_call forth.now) s.old) }
    ensures says { IfOk result (λ sent. sent.items ≡ sorted_by_face
        (said_by_opening K.cmp K.matching one (plain_call forth.now) s.old
        ++ said_by_opening K.cmp K.matching two (plain_call back.now)
        (opened_by_call K.cmp K.matching one (plain_call forth.now) s.old))) }
    ensures does { IfOk result (λ sent. s.new ≡ record
        (opened_by_call K.cmp K.matching two (plain_call back.now)
        (opened_by_call K.cmp K.matching one (plain_call forth.now) s.old)) {
          links = (with_link s.old).links;
          waiting = map (row_after None sent.items) (with_link s.old).waiting;
        }) }
    ensures err { OnErr result (s.new ≡ s.old) }
{
    let face = next_number(s.places().len())?;
    let other = next_number(face as usize)?;
    let turned = open_end(alloc, s, one, forth)?;
    match open_other(alloc, s, face, other, two, back, turned.printed) {
        Ok(sent) => {
            settle_apart(s, turned.gateway, two, turned.former);
            Ok(sent)
        }
        Err(error) => {
            undo_opening(s, turned.gateway, turned.former);
            Err(error)
        }
    }
}

/// Whether a call needs more ids than are left, where its gateway exists.
fn spends_at<K: Key>(
    alloc: Global,
    s: &FabricState<K>,
    gateway: u32,
    call: &Call<K>,
) -> Result<bool, Memory>
    ensures { IfOk result (λ spends. spends
        ≡ is_some_and (call_at s.now gateway (plain_call call.now))
        (λ at. spends_ids K.cmp K.matching at.call at.rows)) }
{
    match member_at(s.gateways(), gateway) {
        None => Ok(false),
        Some(node) => spends_ids(alloc, node.rows()?, call),
    }
}

/// A gateway's rows after a call that opens a face, in a box. That the face has no number counts as
/// out of memory.
fn rows_behind<K: Key>(
    alloc: Global,
    rows: &GatewayState<K>,
    call: &Call<K>,
) -> Result<Box<GatewayState<K>>, Memory>
    ensures { IfOk result (λ after. after.value
        ≡ rows_after_call K.cmp K.matching (plain_call call.now) rows.now) }
{
    if rows.made() == u32::MAX {
        return Err(Memory);
    }
    let mut after = Box::new(alloc, rows.copy(alloc)?)?;
    let _ = carry_out(alloc, &mut *after, call)?;
    Ok(after)
}

/// Whether a call needs more ids than are left behind another one at the same gateway, where that
/// exists.
fn spends_behind<K: Key>(
    alloc: Global,
    s: &FabricState<K>,
    gateway: u32,
    forth: &Call<K>,
    back: &Call<K>,
) -> Result<bool, Memory>
    ensures { IfOk result (λ spends. spends ≡ is_some_and (nth gateway s.now.gateways) (λ node.
        spends_ids K.cmp K.matching (plain_call back.now)
        (rows_after_call K.cmp K.matching (plain_call forth.now) node.rows))) }
{
    match member_at(s.gateways(), gateway) {
        None => Ok(false),
        Some(node) => {
            let rows = rows_behind(alloc, node.rows()?, forth)?;
            spends_ids(alloc, &*rows, back)
        }
    }
}

/// Whether one of the calls that open the faces of a link needs more ids than are left; the second
/// is made on the fabric that the first leaves.
pub(crate) fn spends_for_link<K: Key>(
    alloc: Global,
    s: &FabricState<K>,
    one: u32,
    forth: &Call<K>,
    two: u32,
    back: &Call<K>,
) -> Result<bool, Memory>
    requires opens { opens_face (plain_call forth.now) ≡ true }
    requires order { FabricIsInOrder K.cmp K.matching s.now }
    ensures { IfOk result (λ spends. spends
        ≡ (is_some_and (call_at s.now one (plain_call forth.now))
        (λ at. spends_ids K.cmp K.matching at.call at.rows)
        || is_some_and (call_at
        (opened_by_call K.cmp K.matching one (plain_call forth.now) s.now) two
        (plain_call back.now)) (λ at. spends_ids K.cmp K.matching at.call at.rows))) }
{
    if spends_at(alloc, s, one, forth)? {
        return Ok(true);
    }
    if one == two {
        return spends_behind(alloc, s, two, forth, back);
    }
    spends_at(alloc, s, two, back)
}

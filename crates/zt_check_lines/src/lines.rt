// Why a line is refused.
ghost use Rattle.std.specs.Prelude.{◌≡◌, ◌&&◌, IfOk, is_some, nat_le};
ghost use Rattle.std.specs.List.{list_any};
ghost use Rattle.zt_protocol.specs.Plain.{plain_call, plain_line};
ghost use Rattle.zt_model.specs.Fabric.{call_at, call_face, call_of, is_linked_face};
ghost use Rattle.zt_model.specs.Fabric.{is_open_link, is_unknown_gateway};
ghost use Rattle.zt_model.specs.Fabric.{is_without_trees_above};
ghost use Rattle.zt_model.specs.Linking.{is_end_of};
ghost use Rattle.zt_model.specs.Lists.{first_of};
ghost use Rattle.zt_model.specs.Refusals.{GREATEST_NUMBER};
ghost use Rattle.zt_check_fabric.specs.Made.{made_at};
ghost use Rattle.zt_check_lines.specs.Lines.{cause_at, cause_at_gateway, face_cause};
ghost use Rattle.zt_check_lines.specs.Lines.{gateway_cause, line_cause, names_other_region};
ghost use Rattle.zt_check_lines.specs.Lines.{session_cause, speaking_cause, step_cause};
ghost use Rattle.zt_check_lines.specs.Lines.{unlink_cause, waits};

use crate::links::link_cause;
use std::alloc::Global;
use zt_check_causes::{call_cause, is_region_of};
use zt_check_fabric::{ShownFabric, ShownLink};
use zt_check_rows::goes_by_trees;
use zt_keys::{Key, Memory};
use zt_protocol::{Call, Line, Message, Refusal};
use zt_region::{Region, WhatAmI};

/// Whether all numbers are given out.
pub(crate) fn is_full(count: usize) -> bool
    ensures { result ≡ nat_le GREATEST_NUMBER count }
{
    u32::MAX as usize <= count
}

fn is_unknown_gateway<'a, K: Key>(fabric: &ShownFabric<'a, K>, gateway: u32) -> bool
    ensures { result ≡ is_unknown_gateway fabric.now gateway }
{
    fabric.node(gateway).is_none()
}

fn is_open_link<'a, K: Key>(fabric: &ShownFabric<'a, K>, link: u32) -> bool
    ensures { result ≡ is_open_link fabric.now link }
{
    match fabric.link(link) {
        None => false,
        Some(link) => link.is_open(),
    }
}

// The face that a call names.
fn face_of<K: Key>(call: &Call<K>) -> Option<u32>
    ensures { result ≡ call_face (plain_call call.now) }
{
    match call {
        Call::DeclareToken { face, .. }
        | Call::UndeclareToken { face, .. }
        | Call::Interest { face, .. }
        | Call::InterestFinal { face, .. }
        | Call::DeclareFinal { face, .. }
        | Call::CloseFace { face }
        | Call::SetEntities { face, .. } => Some(*face),
        Call::NewSession { .. }
        | Call::NewTransport { .. }
        | Call::Expire { .. }
        | Call::SetTrees { .. } => None,
    }
}

// Whether the face ends an open link.
fn ends_link(links: &[ShownLink], face: u32) -> bool
    ensures { result ≡ list_any (λ link. link.is_open && is_end_of face link) links.now }
{
    links.iter().any(|link| link.is_open() && (face == link.one() || face == link.two()))
}

// Whether a link alone speaks for the face that a call names.
fn is_linked<'a, K: Key>(fabric: &ShownFabric<'a, K>, call: &Call<K>) -> bool
    ensures { result ≡ is_linked_face fabric.now (call_face (plain_call call.now)) }
{
    match face_of(call) {
        None => false,
        Some(face) => ends_link(fabric.links(), face),
    }
}

// Whether one of these messages is the oldest.
fn is_any<K: Key>(messages: &[Message<K>]) -> bool
    ensures { result ≡ is_some (first_of messages.now) }
{
    !messages.is_empty()
}

// Whether a message waits in a direction of a link.
fn waits<'a, K: Key>(fabric: &ShownFabric<'a, K>, link: u32, back: bool) -> bool
    ensures { result ≡ waits fabric.now link back }
{
    match fabric.link(link) {
        None => false,
        Some(link) => is_any(fabric.waiting(link.sending_end(back))),
    }
}

// Whether a pair names a region that a gateway with these south regions doesn't have.
fn names_other_region(regions: &[Region], pair: &(Region, Region)) -> bool
    ensures { result ≡ names_other_region regions.now pair.now }
{
    !is_region_of(regions, pair.0) || !is_region_of(regions, pair.1)
}

// Whether one of the pairs does.
fn do_pairs_name_other(regions: &[Region], pairs: &[(Region, Region)]) -> bool
    ensures { result ≡ list_any (names_other_region regions.now) pairs.now }
{
    pairs.iter().any(|pair| names_other_region(regions, pair))
}

// Whether a region goes by trees, and the gateway's north doesn't.
fn is_without_trees_above(mode: WhatAmI, region: Region) -> bool
    ensures { result ≡ is_without_trees_above mode region }
{
    goes_by_trees(mode, region) && !goes_by_trees(mode, Region::North)
}

// Whether one of the regions does.
fn lack_trees_above(mode: WhatAmI, regions: &[Region]) -> bool
    ensures { result ≡ list_any (is_without_trees_above mode) regions.now }
{
    regions
        .iter()
        .any(|region| is_without_trees_above(mode, *region))
}

// Why a gateway isn't made.
#[tactic(auto, unfolding(crate::specs::Lines::gateway_cause, zt_model::specs::Refusals::first_cause))]
fn gateway_cause<'a, K: Key>(
    fabric: &ShownFabric<'a, K>,
    mode: WhatAmI,
    regions: &[Region],
    refused: &[(Region, Region)],
) -> Option<Refusal>
    ensures { result ≡ gateway_cause mode regions.now refused.now fabric.now }
{
    if do_pairs_name_other(regions, refused) {
        return Some(Refusal::NoSuchRegion);
    }
    if lack_trees_above(mode, regions) {
        return Some(Refusal::RegionConflict);
    }
    if is_full(fabric.gateways().len()) {
        return Some(Refusal::NumbersSpent);
    }
    None
}

// Why a session isn't opened.
fn session_cause<'a, K: Key>(fabric: &ShownFabric<'a, K>, gateway: u32) -> Option<Refusal>
    ensures { result ≡ session_cause fabric.now gateway }
{
    if is_unknown_gateway(fabric, gateway) {
        return Some(Refusal::UnknownGateway);
    }
    if is_full(fabric.faces().len()) {
        return Some(Refusal::NumbersSpent);
    }
    None
}

// Why a call is refused at a gateway.
fn node_cause<'a, K: Key>(
    alloc: Global,
    fabric: &ShownFabric<'a, K>,
    gateway: u32,
    call: &Call<K>,
) -> Result<Option<Refusal>, Memory>
    ensures { IfOk result (λ cause. cause
        ≡ cause_at K.cmp K.matching (call_at fabric.now gateway (plain_call call.now))) }
{
    match fabric.node(gateway) {
        None => Ok(None),
        Some(node) => call_cause(alloc, node.rows(), call),
    }
}

// Why the one call of a line is refused at its gateway.
fn made_cause<'a, K: Key>(
    alloc: Global,
    fabric: &ShownFabric<'a, K>,
    made: &Option<(u32, Call<K>)>,
) -> Result<Option<Refusal>, Memory>
    ensures { IfOk result (λ cause. cause
        ≡ cause_at K.cmp K.matching (made_at fabric.now made.now)) }
{
    match made {
        None => Ok(None),
        Some((gateway, call)) => node_cause(alloc, fabric, *gateway, call),
    }
}

// Why a line isn't carried out that names a gateway.
fn cause_at_gateway<'a, K: Key>(
    alloc: Global,
    fabric: &ShownFabric<'a, K>,
    gateway: u32,
    made: &Option<(u32, Call<K>)>,
) -> Result<Option<Refusal>, Memory>
    ensures { IfOk result (λ cause. cause
        ≡ cause_at_gateway fabric.now gateway
        (cause_at K.cmp K.matching (made_at fabric.now made.now))) }
{
    if is_unknown_gateway(fabric, gateway) {
        return Ok(Some(Refusal::UnknownGateway));
    }
    made_cause(alloc, fabric, made)
}

// Why a transport isn't opened.
fn face_cause<'a, K: Key>(
    alloc: Global,
    fabric: &ShownFabric<'a, K>,
    gateway: u32,
    made: &Option<(u32, Call<K>)>,
) -> Result<Option<Refusal>, Memory>
    ensures { IfOk result (λ cause. cause
        ≡ face_cause fabric.now gateway
        (cause_at K.cmp K.matching (made_at fabric.now made.now))) }
{
    if let Some(cause) = cause_at_gateway(alloc, fabric, gateway, made)? {
        return Ok(Some(cause));
    }
    if is_full(fabric.faces().len()) {
        return Ok(Some(Refusal::NumbersSpent));
    }
    Ok(None)
}

// Whether the call is made on a gateway.
fn is_made<'a, K: Key>(fabric: &ShownFabric<'a, K>, made: &Option<(u32, Call<K>)>) -> bool
    ensures { result ≡ is_some (made_at fabric.now made.now) }
{
    match made {
        None => false,
        Some((gateway, _)) => !is_unknown_gateway(fabric, *gateway),
    }
}

// Why a face may not speak so.
fn speaking_cause<'a, K: Key>(
    alloc: Global,
    fabric: &ShownFabric<'a, K>,
    call: &Call<K>,
    made: &Option<(u32, Call<K>)>,
) -> Result<Option<Refusal>, Memory>
    ensures { IfOk result (λ cause. cause
        ≡ speaking_cause fabric.now (made_at fabric.now made.now) (call_face (plain_call call.now))
        (cause_at K.cmp K.matching (made_at fabric.now made.now))) }
{
    if !is_made(fabric, made) {
        return Ok(Some(Refusal::UnknownFace));
    }
    if is_linked(fabric, call) {
        return Ok(Some(Refusal::LinkedFace));
    }
    made_cause(alloc, fabric, made)
}

// Why the oldest message of a direction of a link isn't delivered.
fn step_cause<'a, K: Key>(
    alloc: Global,
    fabric: &ShownFabric<'a, K>,
    link: u32,
    back: bool,
    made: &Option<(u32, Call<K>)>,
) -> Result<Option<Refusal>, Memory>
    ensures { IfOk result (λ cause. cause
        ≡ step_cause fabric.now link back
        (cause_at K.cmp K.matching (made_at fabric.now made.now))) }
{
    if !is_open_link(fabric, link) {
        return Ok(Some(Refusal::UnknownLink));
    }
    if !waits(fabric, link, back) {
        return Ok(Some(Refusal::EmptyLink));
    }
    made_cause(alloc, fabric, made)
}

// Why a link isn't closed.
fn unlink_cause<'a, K: Key>(fabric: &ShownFabric<'a, K>, link: u32) -> Option<Refusal>
    ensures { result ≡ unlink_cause fabric.now link }
{
    if is_open_link(fabric, link) {
        return None;
    }
    Some(Refusal::UnknownLink)
}

// Why a line is refused that makes this call, where it makes one.
fn cause_with<'a, K: Key>(
    alloc: Global,
    fabric: &ShownFabric<'a, K>,
    line: &Line<K>,
    made: &Option<(u32, Call<K>)>,
) -> Result<Option<Refusal>, Memory>
    ensures { IfOk result (λ cause. made_at fabric.now made.now
        ≡ call_of (plain_line line.now) fabric.now
        → cause ≡ line_cause K.cmp K.matching (plain_line line.now) fabric.now) }
{
    match line {
        Line::Gateway {
            mode,
            regions,
            refuse,
            ..
        } => Ok(gateway_cause(fabric, *mode, regions.as_slice(), refuse.refused.as_slice())),
        Line::Session { gateway, .. } => Ok(session_cause(fabric, *gateway)),
        Line::Face { gateway, .. } => face_cause(alloc, fabric, *gateway, made),
        Line::Link {
            one,
            two,
            first,
            back,
        } => link_cause(alloc, fabric, *one, *two, *first, *back),
        Line::Unlink { link } => Ok(unlink_cause(fabric, *link)),
        Line::Step { link, back } => step_cause(alloc, fabric, *link, *back, made),
        Line::Speak { call } => speaking_cause(alloc, fabric, call, made),
        Line::Moment { gateway, .. } => cause_at_gateway(alloc, fabric, *gateway, made),
        Line::Trees { gateway, .. } => cause_at_gateway(alloc, fabric, *gateway, made),
    }
}

/// Why a line is refused, if enough ids are left.
pub fn line_cause<'a, K: Key>(
    alloc: Global,
    fabric: &ShownFabric<'a, K>,
    line: &Line<K>,
) -> Result<Option<Refusal>, Memory>
    ensures { IfOk result (λ cause. cause
        ≡ line_cause K.cmp K.matching (plain_line line.now) fabric.now) }
{
    let made = fabric.call_of(alloc, line)?;
    cause_with(alloc, fabric, line, &made)
}

// Why lines are refused: the first cause that holds.
ghost use Rattle.std.specs.Prelude.{◌≡◌, not, nat_le, is_some, IfOk, Some};
ghost use Rattle.zt_protocol.specs.Plain.{plain_call, plain_line};
ghost use Rattle.zt_protocol.specs.declared.errors.Refusal.TheVariants as refusal;
ghost use Rattle.zt_model.specs.Fabric.{call_face, call_of, is_full, is_linked_face, is_open_link};
ghost use Rattle.zt_model.specs.Fabric.{is_unknown_gateway};
ghost use Rattle.zt_model.specs.Linking.{oldest};
ghost use Rattle.zt_model.specs.Lists.{is_some_and, nth};
ghost use Rattle.zt_model.specs.Refusals.{GREATEST_NUMBER, first_cause};
ghost use Rattle.zt_refusals.specs.Making.{making_causes};
ghost use Rattle.zt_links.specs.Lines.{cause_at, cause_if, cause_of_line, made_at, or_cause};

use crate::calls::{CallMade, face_of};
use std::alloc::Global;
use zt_fabric_state::{FabricState, is_linked_face, is_open_link, member_at, oldest};
use zt_keys::{Key, Memory};
use zt_protocol::{Call, Line, Refusal};
use zt_refusals::{cause_of, cause_of_making};
use zt_region::{Admission, Region, WhatAmI};

/// Whether all numbers are given out.
pub(crate) fn is_full(count: usize) -> bool
    ensures { result ≡ nat_le GREATEST_NUMBER count }
{
    count >= u32::MAX as usize
}

fn is_unknown_gateway<K: Key>(s: &FabricState<K>, gateway: u32) -> bool
    ensures { result ≡ is_unknown_gateway s.now gateway }
{
    member_at(s.gateways(), gateway).is_none()
}

/// Why a call is refused at its gateway.
fn cause_of_made<K: Key>(
    alloc: Global,
    s: &FabricState<K>,
    made: &Option<CallMade<K>>,
) -> Result<Option<Refusal>, Memory>
    ensures { IfOk result (λ cause. cause ≡ cause_at K.cmp K.matching (made_at s.now made.now)) }
{
    let Some(made) = made else {
        return Ok(None);
    };
    let Some(node) = member_at(s.gateways(), made.gateway) else {
        return Ok(None);
    };
    cause_of(alloc, node.rows()?, &made.call)
}

/// Why a call is refused that is made on a gateway by its number.
pub(crate) fn cause_at_gateway<K: Key>(
    alloc: Global,
    s: &FabricState<K>,
    gateway: u32,
    made: &Option<CallMade<K>>,
) -> Result<Option<Refusal>, Memory>
    ensures { IfOk result (λ cause. cause
        ≡ or_cause (cause_if (is_unknown_gateway s.now gateway) refusal.UnknownGateway)
        (cause_at K.cmp K.matching (made_at s.now made.now))) }
{
    if is_unknown_gateway(s, gateway) {
        return Ok(Some(Refusal::UnknownGateway));
    }
    cause_of_made(alloc, s, made)
}

/// Why a session isn't opened.
pub(crate) fn session_cause<K: Key>(s: &FabricState<K>, gateway: u32) -> Option<Refusal>
    ensures { result
        ≡ or_cause (cause_if (is_unknown_gateway s.now gateway) refusal.UnknownGateway)
        (cause_if (is_full s.now.faces) refusal.NumbersSpent) }
{
    if is_unknown_gateway(s, gateway) {
        return Some(Refusal::UnknownGateway);
    }
    if is_full(s.places().len()) {
        return Some(Refusal::NumbersSpent);
    }
    None
}

/// Why the face of a transport isn't opened.
pub(crate) fn face_cause<K: Key>(
    alloc: Global,
    s: &FabricState<K>,
    gateway: u32,
    made: &Option<CallMade<K>>,
) -> Result<Option<Refusal>, Memory>
    ensures { IfOk result (λ cause. cause
        ≡ or_cause (cause_if (is_unknown_gateway s.now gateway) refusal.UnknownGateway)
        (or_cause (cause_at K.cmp K.matching (made_at s.now made.now))
        (cause_if (is_full s.now.faces) refusal.NumbersSpent))) }
{
    if is_unknown_gateway(s, gateway) {
        return Ok(Some(Refusal::UnknownGateway));
    }
    if let Some(cause) = cause_of_made(alloc, s, made)? {
        return Ok(Some(cause));
    }
    if is_full(s.places().len()) {
        return Ok(Some(Refusal::NumbersSpent));
    }
    Ok(None)
}

/// Whether a call is made on a gateway that exists.
fn is_made<K: Key>(s: &FabricState<K>, made: &Option<CallMade<K>>) -> bool
    ensures { result ≡ is_some (made_at s.now made.now) }
{
    match made {
        Some(made) => !is_unknown_gateway(s, made.gateway),
        None => false,
    }
}

/// Whether the face that a call names ends an open link.
fn is_linked<K: Key>(s: &FabricState<K>, call: &Call<K>) -> bool
    ensures { result ≡ is_linked_face s.now (call_face (plain_call call.now)) }
{
    match face_of(call) {
        Some(face) => is_linked_face(s, face),
        None => false,
    }
}

/// Why a face may not speak.
pub(crate) fn speak_cause<K: Key>(
    alloc: Global,
    s: &FabricState<K>,
    call: &Call<K>,
    made: &Option<CallMade<K>>,
) -> Result<Option<Refusal>, Memory>
    ensures { IfOk result (λ cause. cause
        ≡ or_cause (cause_if (not (is_some (made_at s.now made.now))) refusal.UnknownFace)
        (or_cause (cause_if (is_linked_face s.now (call_face (plain_call call.now)))
        refusal.LinkedFace)
        (cause_at K.cmp K.matching (made_at s.now made.now)))) }
{
    if !is_made(s, made) {
        return Ok(Some(Refusal::UnknownFace));
    }
    if is_linked(s, call) {
        return Ok(Some(Refusal::LinkedFace));
    }
    cause_of_made(alloc, s, made)
}

/// Whether a message waits in a direction of a link.
fn waits<K: Key>(s: &FabricState<K>, link: u32, back: bool) -> bool
    ensures { result ≡ is_some_and (nth link s.now.links) (λ l. is_some (oldest s.now l back)) }
{
    match s.link_at(link) {
        Some(link) => oldest(s, link, back).is_some(),
        None => false,
    }
}

/// Why no message of a direction of a link is delivered.
pub(crate) fn step_cause<K: Key>(
    alloc: Global,
    s: &FabricState<K>,
    link: u32,
    back: bool,
    made: &Option<CallMade<K>>,
) -> Result<Option<Refusal>, Memory>
    ensures { IfOk result (λ cause. cause
        ≡ or_cause (cause_if (not (is_open_link s.now link)) refusal.UnknownLink)
        (or_cause (cause_if
        (not (is_some_and (nth link s.now.links) (λ l. is_some (oldest s.now l back))))
        refusal.EmptyLink)
        (cause_at K.cmp K.matching (made_at s.now made.now)))) }
{
    if !is_open_link(s, link) {
        return Ok(Some(Refusal::UnknownLink));
    }
    if !waits(s, link, back) {
        return Ok(Some(Refusal::EmptyLink));
    }
    cause_of_made(alloc, s, made)
}

/// Whether all numbers of gateways are given out.
fn has_every_number<K: Key>(s: &FabricState<K>) -> bool
    ensures { result ≡ is_full s.now.gateways }
{
    is_full(s.gateways().len())
}

/// Why a gateway isn't made.
pub(crate) fn gateway_cause<K: Key>(
    s: &FabricState<K>,
    mode: WhatAmI,
    regions: &[Region],
    refuse: &Admission,
) -> Option<Refusal>
    ensures { result
        ≡ or_cause (first_cause (making_causes mode regions.now refuse.now.refused.items))
        (cause_if (is_full s.now.gateways) refusal.NumbersSpent) }
{
    if let Some(cause) = cause_of_making(mode, regions, refuse.refused.as_slice()) {
        return Some(cause);
    }
    if has_every_number(s) {
        return Some(Refusal::NumbersSpent);
    }
    None
}

// Why a new session or a new transport is refused.
ghost use Rattle.std.specs.Prelude.{◌≡◌, IfOk};
ghost use Rattle.std.specs.List.{list_any};
ghost use Rattle.zt_refusals.specs.Lacking.{lacks_for_opening};
ghost use Rattle.zt_model.specs.Journal.{cause_of};
ghost use Rattle.zt_model.specs.Routing.{face_opened, opened};
ghost use Rattle.zt_protocol.specs.Plain.{NewSession, NewTransport};

use crate::dictionary::are_above;
use crate::regions::{are_numbers_spent, has_region, is_north_taken};
use crate::spending::left_ids;
use std::alloc::Global;
use zt_hats::hat_of;
use zt_interests::{opening_interests, opening_tokens};
use zt_keys::{Key, Memory};
use zt_protocol::Refusal;
use zt_region::{Bound, Region, WhatAmI, Zid};
use zt_state::{FaceState, GatewayState};
use zt_tokens::is_routed;

/// Why a new session is refused.
#[tactic(auto, unfolding(zt_model::specs::Journal::cause_of, zt_model::specs::Refusals::call_causes, zt_model::specs::Refusals::first_cause))]
pub(crate) fn session_cause<K: Key>(g: &GatewayState<K>, first: u32) -> Option<Refusal>
    ensures { result ≡ cause_of K.cmp K.matching (NewSession first) g.now }
{
    if are_numbers_spent(g) {
        return Some(Refusal::NumbersSpent);
    }
    None
}

// Whether a new face of this number has too few ids for what it is sent.
fn does_new_face_lack<K: Key>(
    alloc: Global,
    g: &GatewayState<K>,
    number: u32,
    zid: Zid,
    whatami: WhatAmI,
    region: Region,
    bound: Bound,
    first: u32,
) -> Result<bool, Memory>
    ensures { IfOk result (λ lacks. lacks
        ≡ lacks_for_opening K.cmp K.matching g.now
        (face_opened zid whatami region bound first g.now)) }
{
    let f = FaceState::new(alloc, number, region, bound, whatami, zid, first, None)?;
    if is_routed(g, &f) {
        return Ok(false);
    }
    let interests = opening_interests(alloc, g, &f)?;
    let exprs = opening_tokens(alloc, g, &f)?;
    Ok(are_above(left_ids(&f) as usize, interests.len(), exprs.len()))
}

/// Whether a new face needs more ids than it has. The faces that stand are sent nothing, and so
/// need none.
#[tactic(auto, using(crate::proofs::LeftIds::opened_lack))]
pub(crate) fn do_openings_spend<K: Key>(
    alloc: Global,
    g: &GatewayState<K>,
    zid: Zid,
    whatami: WhatAmI,
    region: Region,
    bound: Bound,
    first: u32,
) -> Result<bool, Memory>
    ensures { IfOk result (λ spends. spends
        ≡ list_any (lacks_for_opening K.cmp K.matching g.now)
        (opened zid whatami region bound first g.now).faces) }
{
    let number = g.made().wrapping_add(1);
    does_new_face_lack(alloc, g, number, zid, whatami, region, bound, first)
}

/// Why a new transport is refused.
#[tactic(auto, unfolding(zt_model::specs::Journal::cause_of, zt_model::specs::Refusals::call_causes, zt_model::specs::Refusals::first_cause, zt_model::specs::Refusals::spends_ids, zt_model::specs::Refusals::need))]
pub(crate) fn transport_cause<K: Key>(
    alloc: Global,
    g: &GatewayState<K>,
    zid: Zid,
    whatami: WhatAmI,
    region: Region,
    bound: Bound,
    first: u32,
) -> Result<Option<Refusal>, Memory>
    ensures { IfOk result (λ cause. cause
        ≡ cause_of K.cmp K.matching (NewTransport zid whatami region bound first) g.now) }
{
    if !has_region(g, region) {
        return Ok(Some(Refusal::NoSuchRegion));
    }
    if !hat_of(g.mode(), region).fits(region, whatami, bound) {
        return Ok(Some(Refusal::RegionConflict));
    }
    if is_north_taken(g, region) {
        return Ok(Some(Refusal::NorthTaken));
    }
    if do_openings_spend(alloc, g, zid, whatami, region, bound, first)? {
        return Ok(Some(Refusal::IdsSpent));
    }
    if are_numbers_spent(g) {
        return Ok(Some(Refusal::NumbersSpent));
    }
    Ok(None)
}

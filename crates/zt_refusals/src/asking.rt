// Why an interest is refused.
ghost use Rattle.std.specs.Prelude.{◌≡◌, IfOk};
ghost use Rattle.zt_model.specs.Journal.{cause_of};
ghost use Rattle.zt_model.specs.Says.{row_of};
ghost use Rattle.zt_model.specs.Wants.{kept_options};
ghost use Rattle.zt_protocol.specs.Plain.{Interest};

use crate::dictionary::is_filled_by_interest;
use crate::questions::{asks_from_north, is_illegal_current, is_interest_id_in_use};
use crate::spending::do_interests_spend;
use bitflags::Flags;
use std::alloc::Global;
use zt_keys::{Key, Memory};
use zt_protocol::{InterestId, InterestMode, InterestOptions, Refusal, copy_expression};
use zt_region::WhatAmI;
use zt_state::{FaceState, GatewayState, RemoteInterest};
use zt_tokens::find_face;

// The options of an interest that the gateway keeps, of a face of this mode.
fn kept_options(mode: WhatAmI, options: InterestOptions) -> InterestOptions
    ensures { result ≡ kept_options mode options }
{
    if mode == WhatAmI::Peer || options.contains(InterestOptions::TOKENS) {
        options.difference(InterestOptions::AGGREGATE)
    } else {
        options
    }
}

/// An interest of the face, with the options that the gateway keeps.
pub(crate) fn row_of<K: Key>(
    alloc: Global,
    f: &FaceState<K>,
    mode: InterestMode,
    options: InterestOptions,
    expr: &Option<K>,
) -> Result<RemoteInterest<K>, Memory>
    ensures { IfOk result (λ interest. interest
        ≡ row_of K.cmp K.matching f.now mode options expr.now) }
{
    let expr = copy_expression(expr, alloc)?;
    Ok(RemoteInterest::new(mode, kept_options(f.mode(), options), expr))
}

/// Why an interest is refused.
#[tactic(auto, unfolding(zt_model::specs::Journal::cause_of, zt_model::specs::Refusals::call_causes, zt_model::specs::Refusals::first_cause, zt_model::specs::Refusals::spends_ids, zt_model::specs::Refusals::need))]
pub(crate) fn asking_cause<K: Key>(
    alloc: Global,
    g: &GatewayState<K>,
    face: u32,
    id: InterestId,
    mode: InterestMode,
    options: InterestOptions,
    expr: &Option<K>,
) -> Result<Option<Refusal>, Memory>
    ensures { IfOk result (λ cause. cause
        ≡ cause_of K.cmp K.matching (Interest face id mode options expr.now) g.now) }
{
    let Some(f) = find_face(g, face) else {
        return Ok(Some(Refusal::UnknownFace));
    };
    if f.mode() == WhatAmI::Router {
        return Ok(Some(Refusal::InterestFromRouter));
    }
    if asks_from_north(g, f) {
        return Ok(Some(Refusal::InterestFromNorth));
    }
    if is_illegal_current(mode, options) {
        return Ok(Some(Refusal::IllegalCurrent));
    }
    if is_interest_id_in_use(f, id, mode) {
        return Ok(Some(Refusal::InterestIdInUse));
    }
    let interest = row_of(alloc, f, mode, options, expr)?;
    if is_filled_by_interest(g, &interest) {
        return Ok(Some(Refusal::DictionaryFull));
    }
    if do_interests_spend(alloc, g, face, mode, options, expr)? {
        return Ok(Some(Refusal::IdsSpent));
    }
    Ok(None)
}

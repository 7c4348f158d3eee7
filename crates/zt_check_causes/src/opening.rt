// Why a session isn't opened, or a transport.
ghost use Rattle.std.specs.Prelude.{◌≡◌};
ghost use Rattle.zt_protocol.specs.Plain.{NewSession, NewTransport};
ghost use Rattle.zt_check_causes.specs.Causes.{call_cause};

use crate::hats::fits;
use crate::regions::{are_numbers_spent, is_north_taken, is_region_of};
use zt_check_rows::ShownRows;
use zt_keys::Key;
use zt_protocol::Refusal;
use zt_region::{Bound, Region, WhatAmI, Zid};

/// Why a session isn't opened.
#[tactic(auto, unfolding(crate::specs::Causes::call_cause, zt_model::specs::Refusals::call_causes, zt_model::specs::Refusals::first_cause))]
pub(crate) fn session_cause<K: Key>(rows: &ShownRows<K>, first: u32) -> Option<Refusal>
    ensures { result ≡ call_cause K.cmp K.matching (NewSession first) rows.now }
{
    if are_numbers_spent(rows) {
        return Some(Refusal::NumbersSpent);
    }
    None
}

/// Why a transport isn't opened.
#[tactic(auto, unfolding(crate::specs::Causes::call_cause, zt_model::specs::Refusals::call_causes, zt_model::specs::Refusals::first_cause))]
pub(crate) fn transport_cause<K: Key>(
    rows: &ShownRows<K>,
    zid: Zid,
    mode: WhatAmI,
    region: Region,
    bound: Bound,
    first: u32,
) -> Option<Refusal>
    ensures { result
        ≡ call_cause K.cmp K.matching (NewTransport zid mode region bound first) rows.now }
{
    if !is_region_of(rows.regions(), region) {
        return Some(Refusal::NoSuchRegion);
    }
    if !fits(rows.mode(), region, mode, bound) {
        return Some(Refusal::RegionConflict);
    }
    if is_north_taken(rows, region) {
        return Some(Refusal::NorthTaken);
    }
    if are_numbers_spent(rows) {
        return Some(Refusal::NumbersSpent);
    }
    None
}

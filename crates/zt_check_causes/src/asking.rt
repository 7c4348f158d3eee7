// Why an interest isn't taken.
ghost use Rattle.std.specs.Prelude.{◌≡◌};
ghost use Rattle.zt_protocol.specs.Plain.{Interest};
ghost use Rattle.zt_check_causes.specs.Causes.{call_cause};

use crate::dictionary::is_filled_by_interest;
use crate::questions::{asks_from_north, is_illegal_current, is_interest_id_in_use};
use zt_check_rows::ShownRows;
use zt_keys::Key;
use zt_protocol::{InterestId, InterestMode, InterestOptions, Refusal};
use zt_region::WhatAmI;

/// Why an interest isn't taken.
#[tactic(auto, unfolding(crate::specs::Causes::call_cause, zt_model::specs::Refusals::call_causes, zt_model::specs::Refusals::first_cause))]
pub(crate) fn asking_cause<K: Key>(
    rows: &ShownRows<K>,
    face: u32,
    id: InterestId,
    mode: InterestMode,
    options: InterestOptions,
    expr: &Option<K>,
) -> Option<Refusal>
    ensures { result
        ≡ call_cause K.cmp K.matching (Interest face id mode options expr.now) rows.now }
{
    let Some(from) = rows.face(face) else {
        return Some(Refusal::UnknownFace);
    };
    if from.mode() == WhatAmI::Router {
        return Some(Refusal::InterestFromRouter);
    }
    if asks_from_north(rows, from) {
        return Some(Refusal::InterestFromNorth);
    }
    if is_illegal_current(mode, options) {
        return Some(Refusal::IllegalCurrent);
    }
    if is_interest_id_in_use(from, id, mode) {
        return Some(Refusal::InterestIdInUse);
    }
    if is_filled_by_interest(rows, from, mode, options, expr) {
        return Some(Refusal::DictionaryFull);
    }
    None
}

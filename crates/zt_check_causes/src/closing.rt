// Why an interest isn't ended, a question isn't finished, a face isn't closed or a moment isn't set.
ghost use Rattle.std.specs.Prelude.{◌≡◌};
ghost use Rattle.zt_protocol.specs.Plain.{CloseFace, DeclareFinal, Expire, InterestFinal};
ghost use Rattle.zt_check_causes.specs.Causes.{call_cause};

use crate::found::has_held;
use crate::questions::{is_north, names_nothing};
use zt_check_rows::ShownRows;
use zt_keys::Key;
use zt_protocol::{InterestId, Refusal};

/// Why a held interest isn't ended.
#[tactic(auto, unfolding(crate::specs::Causes::call_cause, zt_model::specs::Refusals::call_causes, zt_model::specs::Refusals::first_cause))]
pub(crate) fn ending_cause<K: Key>(
    rows: &ShownRows<K>,
    face: u32,
    id: InterestId,
) -> Option<Refusal>
    ensures { result ≡ call_cause K.cmp K.matching (InterestFinal face id) rows.now }
{
    let Some(from) = rows.face(face) else {
        return Some(Refusal::UnknownFace);
    };
    if !has_held(from, id) {
        return Some(Refusal::UnknownInterest);
    }
    None
}

/// Why what was asked of a face isn't finished.
#[tactic(auto, unfolding(crate::specs::Causes::call_cause, zt_model::specs::Refusals::call_causes, zt_model::specs::Refusals::first_cause))]
pub(crate) fn finishing_cause<K: Key>(
    rows: &ShownRows<K>,
    face: u32,
    interest: InterestId,
) -> Option<Refusal>
    ensures { result ≡ call_cause K.cmp K.matching (DeclareFinal face interest) rows.now }
{
    let Some(from) = rows.face(face) else {
        return Some(Refusal::UnknownFace);
    };
    if !is_north(from) {
        return Some(Refusal::FinalFromSouth);
    }
    if rows.is_routed(from) || names_nothing(from, interest) {
        return Some(Refusal::UnknownAsk);
    }
    None
}

/// Why a face isn't closed.
#[tactic(auto, unfolding(crate::specs::Causes::call_cause, zt_model::specs::Refusals::call_causes, zt_model::specs::Refusals::first_cause))]
pub(crate) fn closing_cause<K: Key>(rows: &ShownRows<K>, face: u32) -> Option<Refusal>
    ensures { result ≡ call_cause K.cmp K.matching (CloseFace face) rows.now }
{
    if rows.face(face).is_none() {
        return Some(Refusal::UnknownFace);
    }
    None
}

/// Why a moment isn't set.
#[tactic(auto, unfolding(crate::specs::Causes::call_cause, zt_model::specs::Refusals::call_causes, zt_model::specs::Refusals::first_cause))]
pub(crate) fn moment_cause<K: Key>(rows: &ShownRows<K>, now: u64) -> Option<Refusal>
    ensures { result ≡ call_cause K.cmp K.matching (Expire now) rows.now }
{
    if now < rows.moment() {
        return Some(Refusal::MomentBack);
    }
    None
}

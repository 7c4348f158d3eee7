// Why a face's undeclaration, the end of an interest, a final or a closing is refused.
ghost use Rattle.std.specs.Prelude.{◌≡◌};
ghost use Rattle.zt_model.specs.Journal.{cause_of};
ghost use Rattle.zt_protocol.specs.Plain.{CloseFace, DeclareFinal, InterestFinal, UndeclareToken};

use crate::questions::{is_north, is_unknown_router, is_unknown_token, names_nothing};
use zt_keys::Key;
use zt_protocol::{InterestId, Refusal, TokenId};
use zt_region::NodeId;
use zt_state::GatewayState;
use zt_tokens::{find_face, is_routed};

/// Why an undeclaration is refused.
#[tactic(auto, unfolding(zt_model::specs::Journal::cause_of, zt_model::specs::Refusals::call_causes, zt_model::specs::Refusals::first_cause))]
pub(crate) fn undeclaring_cause<K: Key>(
    g: &GatewayState<K>,
    face: u32,
    id: TokenId,
    given: &Option<K>,
    node_id: NodeId,
) -> Option<Refusal>
    ensures { result
        ≡ cause_of K.cmp K.matching (UndeclareToken face id given.now node_id) g.now }
{
    let Some(f) = find_face(g, face) else {
        return Some(Refusal::UnknownFace);
    };
    if is_unknown_router(g, f, node_id) {
        return Some(Refusal::UnknownRouter);
    }
    if is_unknown_token(f, id, given) {
        return Some(Refusal::UnknownToken);
    }
    None
}

/// Why the end of an interest is refused.
#[tactic(auto, unfolding(zt_model::specs::Journal::cause_of, zt_model::specs::Refusals::call_causes, zt_model::specs::Refusals::first_cause))]
pub(crate) fn finalising_cause<K: Key>(
    g: &GatewayState<K>,
    face: u32,
    id: InterestId,
) -> Option<Refusal>
    ensures { result ≡ cause_of K.cmp K.matching (InterestFinal face id) g.now }
{
    let Some(f) = find_face(g, face) else {
        return Some(Refusal::UnknownFace);
    };
    if !f.held().has(id) {
        return Some(Refusal::UnknownInterest);
    }
    None
}

/// Why a final is refused.
#[tactic(auto, unfolding(zt_model::specs::Journal::cause_of, zt_model::specs::Refusals::call_causes, zt_model::specs::Refusals::first_cause))]
pub(crate) fn finishing_cause<K: Key>(
    g: &GatewayState<K>,
    face: u32,
    interest: InterestId,
) -> Option<Refusal>
    ensures { result ≡ cause_of K.cmp K.matching (DeclareFinal face interest) g.now }
{
    let Some(f) = find_face(g, face) else {
        return Some(Refusal::UnknownFace);
    };
    if !is_north(f) {
        return Some(Refusal::FinalFromSouth);
    }
    if is_routed(g, f) || names_nothing(f, interest) {
        return Some(Refusal::UnknownAsk);
    }
    None
}

/// Why the closing of a face is refused.
#[tactic(auto, unfolding(zt_model::specs::Journal::cause_of, zt_model::specs::Refusals::call_causes, zt_model::specs::Refusals::first_cause))]
pub(crate) fn closing_cause<K: Key>(g: &GatewayState<K>, face: u32) -> Option<Refusal>
    ensures { result ≡ cause_of K.cmp K.matching (CloseFace face) g.now }
{
    match find_face(g, face) {
        None => Some(Refusal::UnknownFace),
        Some(_) => None,
    }
}

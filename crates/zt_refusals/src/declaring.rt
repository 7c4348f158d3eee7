// Why a face's declaration is refused.
ghost use Rattle.std.specs.Prelude.{◌≡◌, IfOk};
ghost use Rattle.zt_model.specs.Journal.{cause_of};
ghost use Rattle.zt_protocol.specs.Plain.{DeclareToken};

use crate::questions::{adds_row, is_north, is_token_id_in_use, is_unknown_ask, is_unknown_router};
use crate::spending::do_tokens_spend;
use std::alloc::Global;
use zt_keys::{Key, Memory};
use zt_protocol::{InterestId, Refusal, TokenId};
use zt_region::NodeId;
use zt_state::GatewayState;
use zt_tokens::find_face;

/// Why a declaration is refused.
#[tactic(auto, unfolding(zt_model::specs::Journal::cause_of, zt_model::specs::Refusals::call_causes, zt_model::specs::Refusals::first_cause, zt_model::specs::Refusals::spends_ids, zt_model::specs::Refusals::need))]
pub(crate) fn declaring_cause<K: Key>(
    alloc: Global,
    g: &GatewayState<K>,
    face: u32,
    id: TokenId,
    expr: &K,
    node_id: NodeId,
    interest: Option<InterestId>,
) -> Result<Option<Refusal>, Memory>
    ensures { IfOk result (λ cause. cause
        ≡ cause_of K.cmp K.matching (DeclareToken face id expr.now node_id interest) g.now) }
{
    let Some(f) = find_face(g, face) else {
        return Ok(Some(Refusal::UnknownFace));
    };
    if interest.is_some() && !is_north(f) {
        return Ok(Some(Refusal::AnswerFromSouth));
    }
    if is_unknown_ask(g, f, id, interest) {
        return Ok(Some(Refusal::UnknownAsk));
    }
    if is_unknown_router(g, f, node_id) {
        return Ok(Some(Refusal::UnknownRouter));
    }
    let adds = adds_row(g, f, interest);
    if adds && id == 0 {
        return Ok(Some(Refusal::TokenIdZero));
    }
    if adds && is_token_id_in_use(f, id, expr) {
        return Ok(Some(Refusal::TokenIdInUse));
    }
    if do_tokens_spend(alloc, g, face, interest, expr)? {
        return Ok(Some(Refusal::IdsSpent));
    }
    Ok(None)
}

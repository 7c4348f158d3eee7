// Why a token isn't declared, or undeclared.
ghost use Rattle.std.specs.Prelude.{◌≡◌};
ghost use Rattle.zt_protocol.specs.Plain.{DeclareToken, UndeclareToken};
ghost use Rattle.zt_check_causes.specs.Causes.{call_cause};

use crate::questions::{
    adds_row, is_north, is_token_id_in_use, is_unknown_ask, is_unknown_router, is_unknown_token,
};
use zt_check_rows::ShownRows;
use zt_keys::Key;
use zt_protocol::{InterestId, Refusal, TokenId};
use zt_region::NodeId;

/// Why a token isn't declared.
#[tactic(auto, unfolding(crate::specs::Causes::call_cause, zt_model::specs::Refusals::call_causes, zt_model::specs::Refusals::first_cause))]
pub(crate) fn declaring_cause<K: Key>(
    rows: &ShownRows<K>,
    face: u32,
    id: TokenId,
    expr: &K,
    node_id: NodeId,
    interest: Option<InterestId>,
) -> Option<Refusal>
    ensures { result
        ≡ call_cause K.cmp K.matching (DeclareToken face id expr.now node_id interest) rows.now }
{
    let Some(from) = rows.face(face) else {
        return Some(Refusal::UnknownFace);
    };
    if interest.is_some() && !is_north(from) {
        return Some(Refusal::AnswerFromSouth);
    }
    if is_unknown_ask(rows, from, id, interest) {
        return Some(Refusal::UnknownAsk);
    }
    if is_unknown_router(rows, from, node_id) {
        return Some(Refusal::UnknownRouter);
    }
    let adds = adds_row(rows, from, interest);
    if adds && id == 0 {
        return Some(Refusal::TokenIdZero);
    }
    if adds && is_token_id_in_use(from, id, expr) {
        return Some(Refusal::TokenIdInUse);
    }
    None
}

/// Why a token isn't undeclared.
#[tactic(auto, unfolding(crate::specs::Causes::call_cause, zt_model::specs::Refusals::call_causes, zt_model::specs::Refusals::first_cause))]
pub(crate) fn undeclaring_cause<K: Key>(
    rows: &ShownRows<K>,
    face: u32,
    id: TokenId,
    given: &Option<K>,
    node_id: NodeId,
) -> Option<Refusal>
    ensures { result
        ≡ call_cause K.cmp K.matching (UndeclareToken face id given.now node_id) rows.now }
{
    let Some(from) = rows.face(face) else {
        return Some(Refusal::UnknownFace);
    };
    if is_unknown_router(rows, from, node_id) {
        return Some(Refusal::UnknownRouter);
    }
    if is_unknown_token(from, id, given) {
        return Some(Refusal::UnknownToken);
    }
    None
}

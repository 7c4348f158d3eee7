// Tests of single causes, at a face that is open.
ghost use Rattle.std.specs.Prelude.{◌≡◌};
ghost use Rattle.zt_model.specs.Refusals.{adds_row, answers_nothing, asks_from_north};
ghost use Rattle.zt_model.specs.Refusals.{is_illegal_current, is_interest_id_in_use};
ghost use Rattle.zt_model.specs.Refusals.{is_token_id_in_use, is_unknown_ask, is_unknown_router};
ghost use Rattle.zt_model.specs.Refusals.{is_unknown_token, names_nothing};
ghost use Rattle.zt_model.specs.Telling.{registers};
ghost use Rattle.zt_region.specs.Region.{is_north};

use bitflags::Flags;
use zt_keys::Key;
use zt_protocol::{InterestId, InterestMode, InterestOptions, TokenId};
use zt_region::{NodeId, Region};
use zt_routers::source_of;
use zt_state::{FaceState, GatewayState};
use zt_tokens::{hat_of_face, is_routed};

/// Whether the face leads to the north.
pub(crate) fn is_north<K: Key>(f: &FaceState<K>) -> bool
    ensures { result ≡ is_north f.now.region }
{
    f.region() == Region::North
}

/// Whether a face to the north asks, and its hat takes no interests from such a remote.
pub(crate) fn asks_from_north<K: Key>(g: &GatewayState<K>, f: &FaceState<K>) -> bool
    ensures { result ≡ asks_from_north g.now f.now }
{
    is_north(f) && !hat_of_face(g, f).takes_interests(f.mode())
}

/// Whether an interest is of mode Current and asks for subscribers or queryables, or doesn't ask
/// for tokens.
pub(crate) fn is_illegal_current(mode: InterestMode, options: InterestOptions) -> bool
    ensures { result ≡ is_illegal_current mode options }
{
    !mode.is_future()
        && (options.contains(InterestOptions::SUBSCRIBERS)
            || options.contains(InterestOptions::QUERYABLES)
            || !options.contains(InterestOptions::TOKENS))
}

/// Whether an interest of the face stands under the id that this one would stand under too.
pub(crate) fn is_interest_id_in_use<K: Key>(
    f: &FaceState<K>,
    id: InterestId,
    mode: InterestMode,
) -> bool
    ensures { result ≡ is_interest_id_in_use id mode f.now }
{
    (mode.is_future() && f.held().has(id)) || (mode.is_current() && f.asks().has(id))
}

/// Whether the id names no interest that stands at the face, sent to it and not ended.
pub(crate) fn names_nothing<K: Key>(f: &FaceState<K>, id: InterestId) -> bool
    ensures { result ≡ names_nothing id f.now }
{
    !f.pendings().has(id) && !f.locals().has(id) && !(id == 0 && f.initial().is_some())
}

// Whether a token without an id answers no interest that was sent to the face.
fn answers_nothing<K: Key>(f: &FaceState<K>, id: TokenId, interest: Option<InterestId>) -> bool
    ensures { result ≡ answers_nothing id interest f.now }
{
    match interest {
        None => false,
        Some(interest) => id == 0 && names_nothing(f, interest),
    }
}

/// Whether a token names an interest that was not sent to its face.
pub(crate) fn is_unknown_ask<K: Key>(
    g: &GatewayState<K>,
    f: &FaceState<K>,
    id: TokenId,
    interest: Option<InterestId>,
) -> bool
    ensures { result ≡ is_unknown_ask id interest g.now f.now }
{
    if is_routed(g, f) {
        interest.is_some()
    } else {
        answers_nothing(f, id, interest)
    }
}

/// Whether a face of a router region means no other router by the node id.
pub(crate) fn is_unknown_router<K: Key>(
    g: &GatewayState<K>,
    f: &FaceState<K>,
    node_id: NodeId,
) -> bool
    ensures { result ≡ is_unknown_router node_id g.now f.now }
{
    is_routed(g, f) && source_of(g, f, node_id).is_none()
}

/// Whether a declaration for this interest, or for none, adds a live row to the face.
pub(crate) fn registers<K: Key>(f: &FaceState<K>, interest: Option<InterestId>) -> bool
    ensures { result ≡ registers f.now interest }
{
    match interest {
        None => true,
        Some(interest) => match f.pendings().at(interest) {
            None => true,
            Some(pending) => pending.mode().is_future(),
        },
    }
}

/// Whether a declaration of the face adds a live row, and the face is outside router regions.
pub(crate) fn adds_row<K: Key>(
    g: &GatewayState<K>,
    f: &FaceState<K>,
    interest: Option<InterestId>,
) -> bool
    ensures { result ≡ adds_row interest g.now f.now }
{
    !is_routed(g, f) && registers(f, interest)
}

/// Whether the id is that of a live token of the face with another expression.
pub(crate) fn is_token_id_in_use<K: Key>(f: &FaceState<K>, id: TokenId, expr: &K) -> bool
    ensures { result ≡ is_token_id_in_use K.cmp id expr.now f.now }
{
    match f.live().at(id) {
        None => false,
        Some(live) => expr != live,
    }
}

/// Whether an undeclaration without expression has the id of no live token.
pub(crate) fn is_unknown_token<K: Key>(f: &FaceState<K>, id: TokenId, given: &Option<K>) -> bool
    ensures { result ≡ is_unknown_token id given.now f.now }
{
    given.is_none() && !f.live().has(id)
}

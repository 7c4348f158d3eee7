// What causes ask of an open face.
ghost use Rattle.std.specs.Prelude.{◌≡◌};
ghost use Rattle.zt_model.specs.Refusals.{adds_row, answers_nothing, asks_from_north};
ghost use Rattle.zt_model.specs.Refusals.{is_illegal_current, is_interest_id_in_use};
ghost use Rattle.zt_model.specs.Refusals.{is_token_id_in_use, is_unknown_ask, is_unknown_router};
ghost use Rattle.zt_model.specs.Refusals.{is_unknown_token, names_nothing};
ghost use Rattle.zt_model.specs.Telling.{registers};
ghost use Rattle.zt_region.specs.Region.{is_north};

use crate::by_id::has_id;
use crate::found::{has_ask, has_held, has_live, has_pending, live_at, pending_at};
use crate::hats::takes_from_north;
use bitflags::Flags;
use zt_check_faces::ShownFace;
use zt_check_rows::ShownRows;
use zt_keys::Key;
use zt_protocol::{InterestId, InterestMode, InterestOptions, TokenId};
use zt_region::{NodeId, Region};

/// Whether the face is to the north.
pub fn is_north<K: Key>(face: &ShownFace<K>) -> bool
    ensures { result ≡ is_north face.now.region }
{
    face.region() == Region::North
}

/// Whether it is, and the gateway takes no interests of such a remote.
pub(crate) fn asks_from_north<K: Key>(rows: &ShownRows<K>, face: &ShownFace<K>) -> bool
    ensures { result ≡ asks_from_north rows.now face.now }
{
    is_north(face) && !takes_from_north(rows.mode(), face.mode())
}

/// Whether an interest is of mode Current and asks for subscribers or queryables, or doesn't ask
/// for tokens.
pub(crate) fn is_illegal_current(mode: InterestMode, options: InterestOptions) -> bool
    ensures { result ≡ is_illegal_current mode options }
{
    let entities = options.contains(InterestOptions::SUBSCRIBERS)
        || options.contains(InterestOptions::QUERYABLES);
    !mode.is_future() && (entities || !options.contains(InterestOptions::TOKENS))
}

/// Whether the face holds an interest of the id, or asks by it, where this one would too.
pub(crate) fn is_interest_id_in_use<K: Key>(
    face: &ShownFace<K>,
    id: InterestId,
    mode: InterestMode,
) -> bool
    ensures { result ≡ is_interest_id_in_use id mode face.now }
{
    (mode.is_future() && has_held(face, id)) || (mode.is_current() && has_ask(face, id))
}

/// Whether no interest of the id was sent to the face and stands.
pub(crate) fn names_nothing<K: Key>(face: &ShownFace<K>, id: InterestId) -> bool
    ensures { result ≡ names_nothing id face.now }
{
    let is_initial = id == 0 && face.initial().is_some();
    !has_pending(face, id) && !has_id(face.locals(), id) && !is_initial
}

// Whether a token with the id 0 answers no interest that was sent to the face.
fn answers_nothing<K: Key>(face: &ShownFace<K>, id: TokenId, interest: Option<InterestId>) -> bool
    ensures { result ≡ answers_nothing id interest face.now }
{
    match interest {
        None => false,
        Some(interest) => id == 0 && names_nothing(face, interest),
    }
}

/// Whether a token names an interest that wasn't sent to its face.
pub(crate) fn is_unknown_ask<K: Key>(
    rows: &ShownRows<K>,
    face: &ShownFace<K>,
    id: TokenId,
    interest: Option<InterestId>,
) -> bool
    ensures { result ≡ is_unknown_ask id interest rows.now face.now }
{
    if rows.is_routed(face) {
        return interest.is_some();
    }
    answers_nothing(face, id, interest)
}

/// Whether a face of a router region means no other router by the node id.
pub(crate) fn is_unknown_router<K: Key>(
    rows: &ShownRows<K>,
    face: &ShownFace<K>,
    node_id: NodeId,
) -> bool
    ensures { result ≡ is_unknown_router node_id rows.now face.now }
{
    rows.is_routed(face) && rows.router_meant(face, node_id).is_none()
}

// Whether a declaration adds a row: it doesn't where it answers a question for what is there now
// alone.
fn registers<K: Key>(face: &ShownFace<K>, interest: Option<InterestId>) -> bool
    ensures { result ≡ registers face.now interest }
{
    let Some(interest) = interest else {
        return true;
    };
    match pending_at(face, interest) {
        None => true,
        Some(pending) => pending.mode().is_future(),
    }
}

/// Whether a declaration adds a row to a face outside router regions.
pub(crate) fn adds_row<K: Key>(
    rows: &ShownRows<K>,
    face: &ShownFace<K>,
    interest: Option<InterestId>,
) -> bool
    ensures { result ≡ adds_row interest rows.now face.now }
{
    !rows.is_routed(face) && registers(face, interest)
}

/// Whether the face declares another expression under the id.
pub(crate) fn is_token_id_in_use<K: Key>(face: &ShownFace<K>, id: TokenId, expr: &K) -> bool
    ensures { result ≡ is_token_id_in_use K.cmp id expr.now face.now }
{
    match live_at(face, id) {
        None => false,
        Some(live) => expr != live,
    }
}

/// Whether an undeclaration without an expression has an id under which the face declares nothing.
pub(crate) fn is_unknown_token<K: Key>(face: &ShownFace<K>, id: TokenId, given: &Option<K>) -> bool
    ensures { result ≡ is_unknown_token id given.now face.now }
{
    given.is_none() && !has_live(face, id)
}

// Whether faces have ids left for what a call would send them.
ghost use Rattle.std.specs.Prelude.{◌≡◌, ◌&&◌, not, IfOk, None, Some, filter, length};
ghost use Rattle.std.specs.List.{list_any};
ghost use Rattle.zt_refusals.specs.Lacking.{answers_for_later, lacks_among, lacks_for_answers};
ghost use Rattle.zt_refusals.specs.Lacking.{lacks_for_interest, lacks_for_target, lacks_for_token};
ghost use Rattle.zt_refusals.specs.Lacking.{is_answered_anew_by, needs_by};
ghost use Rattle.zt_protocol.specs.Interest.{is_future};
ghost use Rattle.zt_model.specs.Lists.{is_some_and};
ghost use Rattle.zt_model.specs.Parts.{find_face};
ghost use Rattle.zt_model.specs.Refusals.{left_ids};
ghost use Rattle.zt_model.specs.Rows.{Face};
ghost use Rattle.zt_model.specs.Says.{row_of};
ghost use Rattle.zt_model.specs.Telling.{answered_expressions, is_answered_by, registers};
ghost use Rattle.zt_model.specs.Visible.{keeps};
ghost use Rattle.zt_token_index.specs.Told.{AreRising};

use crate::asking::row_of;
use crate::questions::registers;
use std::alloc::Global;
use zt_interests::is_target;
use zt_keys::{Key, Memory};
use zt_protocol::{InterestId, InterestMode, InterestOptions, TokenId};
use zt_region::Region;
use zt_state::{AskState, Asker, FaceState, GatewayState};
use zt_token_index::id_in;
use zt_tokens::{answered_expressions, find_face, is_answered_by, is_routed, is_told};

/// How many ids can be drawn for a face.
pub(crate) fn left_ids<K: Key>(f: &FaceState<K>) -> u32
    ensures { result ≡ left_ids f.now }
{
    u32::MAX - f.next()
}

// ---- tokens

// Whether a token that the face declares for the interest answers an ask for what comes later too.
fn is_answered_for_later<K: Key>(ask: &AskState<K>, face: u32, id: InterestId, expr: &K) -> bool
    ensures { result
        ≡ (is_future ask.now.interest.mode
        && is_answered_by K.cmp K.matching face id expr.now ask.now) }
{
    ask.interest().mode().is_future() && is_answered_by(face, id, expr, ask)
}

// Whether such a token answers an ask of this face for what comes later too.
fn answers_for_later<K: Key>(f: &FaceState<K>, face: u32, id: InterestId, expr: &K) -> bool
    ensures { result ≡ answers_for_later K.cmp K.matching face id expr.now f.now }
{
    f.asks()
        .iter()
        .any(|(_, ask)| is_answered_for_later(ask, face, id, expr))
}

// Whether the token answers an ask of the face anew, for which it needs an id. The face was told
// the expression under the id `known`, or not at all.
fn is_answered_anew<K: Key>(
    face: u32,
    interest: Option<InterestId>,
    expr: &K,
    from: &FaceState<K>,
    f: &FaceState<K>,
    known: Option<TokenId>,
) -> bool
    ensures { result
        ≡ is_answered_anew_by K.cmp K.matching face interest expr.now from.now f.now known }
{
    match interest {
        None => false,
        Some(id) => {
            from.pendings().has(id) && known.is_none() && answers_for_later(f, face, id, expr)
        }
    }
}

// Whether the face needs an id for the token: it is told of it, or answered. It was told the
// expression before under the id `known`, or not at all.
fn needs_token_id<K: Key>(
    g: &GatewayState<K>,
    face: u32,
    interest: Option<InterestId>,
    expr: &K,
    from: &FaceState<K>,
    f: &FaceState<K>,
    known: Option<TokenId>,
) -> bool
    ensures { result
        ≡ needs_by K.cmp K.matching face interest expr.now g.now from.now f.now known }
{
    is_told(g, from.region(), expr, f, known)
        || is_answered_anew(face, interest, expr, from, f, known)
}

// Whether the face needs an id for the token and has none left. `told` has the faces that were told
// the expression, each with the id under which it was.
fn lacks_token_id<K: Key>(
    g: &GatewayState<K>,
    face: u32,
    interest: Option<InterestId>,
    expr: &K,
    from: &FaceState<K>,
    told: &[(u32, TokenId)],
    f: &FaceState<K>,
) -> bool
    requires found { find_face face g.now ≡ Some from.now }
    requires in_order { AreRising told.now }
    ensures { result
        ≡ lacks_among K.cmp K.matching face interest expr.now g.now told.now f.now }
{
    !is_routed(g, f)
        && left_ids(f) == 0
        && registers(from, interest)
        && needs_token_id(g, face, interest, expr, from, f, id_in(told, f.number()))
}

// The same of the face of a number, if it is open.
fn lacks_token_id_at<K: Key>(
    g: &GatewayState<K>,
    face: u32,
    interest: Option<InterestId>,
    expr: &K,
    from: &FaceState<K>,
    told: &[(u32, TokenId)],
    number: u32,
) -> bool
    requires found { find_face face g.now ≡ Some from.now }
    requires in_order { AreRising told.now }
    ensures { result ≡ is_some_and (find_face number g.now)
        (lacks_among K.cmp K.matching face interest expr.now g.now told.now) }
{
    match find_face(g, number) {
        None => false,
        Some(f) => lacks_token_id(g, face, interest, expr, from, told, f),
    }
}

// Whether a token that answers nobody needs an id of some face of these numbers that has none left.
fn do_numbers_lack<K: Key>(
    g: &GatewayState<K>,
    face: u32,
    expr: &K,
    from: &FaceState<K>,
    told: &[(u32, TokenId)],
    numbers: &[u32],
) -> bool
    requires found { find_face face g.now ≡ Some from.now }
    requires in_order { AreRising told.now }
    ensures { result ≡ list_any (λ n. is_some_and (find_face n g.now)
        (lacks_among K.cmp K.matching face None expr.now g.now told.now)) numbers.now }
{
    numbers.iter().any(|number| lacks_token_id_at(g, face, None, expr, from, told, *number))
}

// Whether the token needs an id of some face that has none left, asking each. `told` has the faces
// that were told the expression, each with the id under which it was.
fn do_faces_lack<K: Key>(
    g: &GatewayState<K>,
    face: u32,
    interest: Option<InterestId>,
    expr: &K,
    from: &FaceState<K>,
    told: &[(u32, TokenId)],
) -> bool
    requires found { find_face face g.now ≡ Some from.now }
    requires in_order { AreRising told.now }
    ensures { result ≡ list_any
        (lacks_among K.cmp K.matching face interest expr.now g.now told.now) g.now.faces }
{
    g.faces()
        .any(|f| lacks_token_id(g, face, interest, expr, from, told, f))
}

// The same, where it is first looked up which faces were told the expression.
fn does_any_lack<K: Key>(
    g: &GatewayState<K>,
    face: u32,
    interest: Option<InterestId>,
    expr: &K,
    from: &FaceState<K>,
) -> bool
    requires { find_face face g.now ≡ Some from.now }
    ensures { result
        ≡ list_any (lacks_for_token K.cmp K.matching face interest expr.now g.now) g.now.faces }
{
    do_faces_lack(g, face, interest, expr, from, g.told_at(expr))
}

// The same of a token that answers nobody: of the faces that seek it, where these can be looked up.
fn do_seekers_lack<K: Key>(
    alloc: Global,
    g: &GatewayState<K>,
    face: u32,
    expr: &K,
    from: &FaceState<K>,
) -> Result<bool, Memory>
    requires { find_face face g.now ≡ Some from.now }
    ensures { IfOk result (λ lack. lack
        ≡ list_any (lacks_for_token K.cmp K.matching face None expr.now g.now) g.now.faces) }
{
    match g.find_seekers(alloc, expr)? {
        Some(numbers) => {
            let told = g.told_at(expr);
            Ok(do_numbers_lack(g, face, expr, from, told, &numbers))
        }
        None => Ok(does_any_lack(g, face, None, expr, from)),
    }
}

// Whether a token that is declared for an interest needs an id of some face that has none left,
// apart from the face whose ask it answers.
fn do_others_lack<K: Key>(
    alloc: Global,
    g: &GatewayState<K>,
    face: u32,
    id: InterestId,
    expr: &K,
    from: &FaceState<K>,
) -> Result<bool, Memory>
    requires { find_face face g.now ≡ Some from.now }
    ensures { IfOk result (λ lack. lack ≡ (registers from.now (Some id)
        && list_any (lacks_for_token K.cmp K.matching face None expr.now g.now) g.now.faces)) }
{
    if !registers(from, Some(id)) {
        return Ok(false);
    }
    do_seekers_lack(alloc, g, face, expr, from)
}

// Whether a token needs an id of the face of this number, which has none left.
fn does_asker_lack<K: Key>(
    g: &GatewayState<K>,
    face: u32,
    id: InterestId,
    expr: &K,
    from: &FaceState<K>,
    asker: u32,
) -> bool
    requires { find_face face g.now ≡ Some from.now }
    ensures { result ≡ is_some_and (find_face asker g.now)
        (lacks_for_token K.cmp K.matching face (Some id) expr.now g.now) }
{
    lacks_token_id_at(g, face, Some(id), expr, from, g.told_at(expr), asker)
}

// Whether a token that is declared for an interest needs an id of some face that has none left. It
// is looked up whose ask it answers.
fn do_answers_spend<K: Key>(
    alloc: Global,
    g: &GatewayState<K>,
    face: u32,
    id: InterestId,
    expr: &K,
    from: &FaceState<K>,
) -> Result<bool, Memory>
    requires { find_face face g.now ≡ Some from.now }
    ensures { IfOk result (λ lack. lack
        ≡ list_any (lacks_for_token K.cmp K.matching face (Some id) expr.now g.now) g.now.faces) }
{
    match g.asker(face, id) {
        Asker::Nobody => do_others_lack(alloc, g, face, id, expr, from),
        Asker::One { face: asker, .. } => {
            if does_asker_lack(g, face, id, expr, from, asker) {
                return Ok(true);
            }
            do_others_lack(alloc, g, face, id, expr, from)
        }
        Asker::Several => Ok(does_any_lack(g, face, Some(id), expr, from)),
    }
}

/// Whether a token that a face declares needs an id of some face that has none left. Nearly always
/// each face has one, and then none is looked up.
pub(crate) fn do_tokens_spend<K: Key>(
    alloc: Global,
    g: &GatewayState<K>,
    face: u32,
    interest: Option<InterestId>,
    expr: &K,
) -> Result<bool, Memory>
    ensures { IfOk result (λ spend. spend
        ≡ list_any (lacks_for_token K.cmp K.matching face interest expr.now g.now) g.now.faces) }
{
    if g.highest_next() < u32::MAX {
        return Ok(false);
    }
    let Some(from) = find_face(g, face) else {
        return Ok(false);
    };
    match interest {
        None => do_seekers_lack(alloc, g, face, expr, from),
        Some(id) => do_answers_spend(alloc, g, face, id, expr, from),
    }
}

// ---- interests

// Whether the face is sent an interest of this mode of a face of the region `asker`, and has no id
// left for it.
fn lacks_target_id<K: Key>(
    g: &GatewayState<K>,
    asker: Region,
    mode: InterestMode,
    f: &FaceState<K>,
) -> bool
    ensures { result ≡ lacks_for_target asker mode g.now f.now }
{
    !is_routed(g, f) && left_ids(f) == 0 && is_target(g, asker, mode, f)
}

// The same of the face of a number, if it is open.
fn lacks_target_id_at<K: Key>(
    g: &GatewayState<K>,
    asker: Region,
    mode: InterestMode,
    number: u32,
) -> bool
    ensures { result ≡ is_some_and (find_face number g.now) (lacks_for_target asker mode g.now) }
{
    match find_face(g, number) {
        None => false,
        Some(f) => lacks_target_id(g, asker, mode, f),
    }
}

// Whether an interest is sent to some face of these numbers that has no id left for it.
fn do_targets_lack<K: Key>(
    g: &GatewayState<K>,
    asker: Region,
    mode: InterestMode,
    numbers: &[u32],
) -> bool
    ensures { result ≡ list_any (λ n. is_some_and (find_face n g.now)
        (lacks_for_target asker mode g.now)) numbers.now }
{
    numbers
        .iter()
        .any(|number| lacks_target_id_at(g, asker, mode, *number))
}

// Whether the face of a number wasn't told the expression, if it is open.
fn is_untold<K: Key>(g: &GatewayState<K>, face: u32, expr: &K) -> bool
    ensures { (f : Face K) → find_face face g.now ≡ Some f → result ≡ not (keeps K.cmp f expr.now) }
{
    g.told_id(expr, face).is_none()
}

// How many ids a face needs for the answers to an interest of its own.
fn ids_for_answers<K: Key>(
    alloc: Global,
    g: &GatewayState<K>,
    face: u32,
    mode: InterestMode,
    options: InterestOptions,
    expr: &Option<K>,
    f: &FaceState<K>,
) -> Result<usize, Memory>
    requires { find_face face g.now ≡ Some f.now }
    ensures { IfOk result (λ count. count
        ≡ length (filter (λ k. not (keeps K.cmp f.now k))
        (answered_expressions K.cmp K.matching g.now
        (row_of K.cmp K.matching f.now mode options expr.now) f.now))) }
{
    let interest = row_of(alloc, f, mode, options, expr)?;
    let exprs = answered_expressions(alloc, g, &interest, f)?;
    Ok(exprs.iter().filter(|k| is_untold(g, face, k)).count())
}

// Whether a face needs more ids for the answers to an interest of its own than are left.
fn lacks_answer_ids<K: Key>(
    alloc: Global,
    g: &GatewayState<K>,
    face: u32,
    mode: InterestMode,
    options: InterestOptions,
    expr: &Option<K>,
    f: &FaceState<K>,
) -> Result<bool, Memory>
    requires { find_face face g.now ≡ Some f.now }
    ensures { IfOk result (λ lacks. lacks
        ≡ lacks_for_answers K.cmp K.matching mode options expr.now g.now f.now) }
{
    if is_routed(g, f) || !mode.is_future() {
        return Ok(false);
    }
    let answers = ids_for_answers(alloc, g, face, mode, options, expr, f)?;
    Ok((left_ids(f) as usize) < answers)
}

/// Whether an interest of a face needs more ids of some face than are left: of that face, which is
/// answered, or of one to the north.
pub(crate) fn do_interests_spend<K: Key>(
    alloc: Global,
    g: &GatewayState<K>,
    face: u32,
    mode: InterestMode,
    options: InterestOptions,
    expr: &Option<K>,
) -> Result<bool, Memory>
    ensures { IfOk result (λ spends. spends
        ≡ list_any
        (lacks_for_interest K.cmp K.matching face mode options expr.now g.now) g.now.faces) }
{
    let Some(from) = find_face(g, face) else {
        return Ok(false);
    };
    if lacks_answer_ids(alloc, g, face, mode, options, expr, from)? {
        return Ok(true);
    }
    Ok(do_targets_lack(g, from.region(), mode, g.north()))
}

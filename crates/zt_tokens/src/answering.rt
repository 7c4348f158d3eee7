// What interests and asks are answered.
ghost use Rattle.std.specs.Prelude.{◌≡◌, ◌&&◌, ◌++◌, ◌∷◌, [], if◌then◌else◌, IfOk, OnOk};
ghost use Rattle.std.specs.Prelude.{filter, map, true, unwrap_or, Some};
ghost use Rattle.zt_model.specs.Parts.{find_face, to_face};
ghost use Rattle.zt_model.specs.Telling.{answer, answers_from, answers_of};
ghost use Rattle.zt_model.specs.Telling.{answered_expressions, is_answered_by, was_sent_as};
ghost use Rattle.zt_model.specs.Visible.{visible_expressions};
ghost use Rattle.zt_model.specs.Wants.{is_about};
ghost use Rattle.zt_protocol.specs.Interest.{has_tokens, is_current, is_future};
ghost use Rattle.zt_faces.specs.Asked.{IsAskerOf};
ghost use Rattle.zt_faces.specs.Rising.{IsRising};
ghost use Rattle.zt_faces.specs.declared.asked.Asker.TheVariants.{One};
ghost use Rattle.zt_token_index.specs.Retold.{told_id_at};
ghost use Rattle.zt_token_index.specs.Told.{AreRising};
ghost use Rattle.zt_tokens.specs.Answered.{answer_message, answer_of, answer_told, id_after};

use crate::questions::find_face;
use crate::visibility::{visible_expressions, visible_matches};
use bitflags::Flags;
use std::alloc::Global;
use zt_keys::{Key, Memory};
use zt_protocol::{InterestId, InterestMode, InterestOptions, Message, TokenId};
use zt_region::Region;
use zt_state::{AskState, Asker, FaceState, GatewayState, RemoteInterest};
use zt_token_index::id_in;

// Whether the interest asks for tokens that are there now.
fn asks_now<K: Key>(interest: &RemoteInterest<K>) -> bool
    ensures { result ≡ (is_current interest.now.mode && has_tokens interest.now.options) }
{
    interest.mode().is_current() && interest.options().contains(InterestOptions::TOKENS)
}

// Of the expressions that are visible to faces of a region those that the interest is about, in key
// order.
fn asked_expressions<K: Key>(
    alloc: Global,
    g: &GatewayState<K>,
    interest: &RemoteInterest<K>,
    own: Region,
) -> Result<Vec<K>, Memory>
    ensures { IfOk result (λ exprs. exprs.items
        ≡ filter (is_about K.matching interest.now.expr) (visible_expressions K.cmp g.now own)) }
{
    match interest.expr() {
        Some(key) => visible_matches(alloc, g, own, key),
        None => visible_expressions(alloc, g, own),
    }
}

/// The expressions that a face is answered at once when it asks so: those that match and are
/// visible to it, in key order, where it asks for tokens that are there now.
#[tactic(auto, unfolding(zt_model::specs::Telling::answered_expressions))]
pub fn answered_expressions<K: Key>(
    alloc: Global,
    g: &GatewayState<K>,
    interest: &RemoteInterest<K>,
    f: &FaceState<K>,
) -> Result<Vec<K>, Memory>
    ensures { IfOk result (λ exprs. exprs.items
        ≡ answered_expressions K.cmp K.matching g.now interest.now f.now) }
{
    if !asks_now(interest) {
        return Ok(Vec::new(alloc));
    }
    asked_expressions(alloc, g, interest, f.region())
}

// The id of an answer: 0 where what comes later isn't asked for, else the one under which the face
// was told the expression, or a new one.
fn answer_id(next: u32, known: Option<TokenId>, mode: InterestMode) -> TokenId
    ensures { result ≡ (if is_future mode then unwrap_or known next else 0) }
{
    if mode.is_future() {
        known.unwrap_or(next)
    } else {
        0
    }
}

// The id that is drawn after the answer of an expression that the face was told under an id, or not
// at all. Ids that run out count as out of memory.
fn id_after(next: u32, known: Option<TokenId>, mode: InterestMode) -> Result<u32, Memory>
    ensures { IfOk result (λ after. after ≡ id_after next known mode) }
{
    if mode.is_future() && known.is_none() {
        return next.checked_add(1).ok_or(Memory);
    }
    Ok(next)
}

// Adds the answer of one expression, that the face was told under an id, or not at all.
fn answer_one<K: Key>(
    alloc: Global,
    face: u32,
    next: u32,
    known: Option<TokenId>,
    mode: InterestMode,
    id: InterestId,
    expr: &K,
    sends: &mut Vec<(u32, Message<K>)>,
) -> Result<(), Memory>
    ensures { OnOk result (sends.new.items
        ≡ sends.old.items ++ (face, answer_message next known mode id expr.now) ∷ []) }
{
    let message = Message::DeclareToken {
        id: answer_id(next, known, mode),
        expr: expr.copy(alloc)?,
        interest_id: Some(id),
        node_id: 0,
    };
    sends.push((face, message))?;
    Ok(())
}

// The id under which the face was told the expression, if it was. It isn't looked up where what
// comes later isn't asked for, as no answer is under it then.
fn told_for<K: Key>(g: &GatewayState<K>, face: u32, mode: InterestMode, expr: &K) -> Option<TokenId>
    ensures { is_future mode ≡ true →
        result ≡ told_id_at K.cmp expr.now g.now.faces face }
{
    if mode.is_future() {
        g.told_id(expr, face)
    } else {
        None
    }
}

// The answers of these expressions to a face.
fn answer_all<K: Key>(
    alloc: Global,
    g: &GatewayState<K>,
    face: u32,
    f: &FaceState<K>,
    mode: InterestMode,
    id: InterestId,
    exprs: &[K],
) -> Result<Vec<(u32, Message<K>)>, Memory>
    requires { find_face face g.now ≡ Some f.now }
    ensures { IfOk result (λ sends. sends.items ≡ map (λ m. (face, m))
        (answers_from K.cmp K.matching f.now.next f.now.told mode id exprs.now)) }
{
    let mut sends = Vec::new(alloc);
    let mut next = f.next();
    for expr in exprs {
        let known = told_for(g, face, mode, expr);
        answer_one(alloc, face, next, known, mode, id, expr, &mut sends)?;
        next = id_after(next, known, mode)?;
    }
    Ok(sends)
}

/// Makes an index of live expressions, if the interest asks for some at once and memory suffices.
/// The answers are then found without trying each expression.
pub fn prepare_answers<K: Key>(alloc: Global, g: &mut GatewayState<K>, interest: &RemoteInterest<K>)
    ensures { g.new ≡ g.old }
{
    if let Some(key) = interest.expr() {
        if asks_now(interest) {
            g.prepare_live(alloc, key);
        }
    }
}

/// What the face's own interest is answered at once. Ids that run out count as out of memory.
#[tactic(auto, unfolding(zt_model::specs::Parts::to_face))]
pub fn answer_interest<K: Key>(
    alloc: Global,
    g: &GatewayState<K>,
    face: u32,
    id: InterestId,
    interest: &RemoteInterest<K>,
) -> Result<Vec<(u32, Message<K>)>, Memory>
    ensures { IfOk result (λ sends. sends.items
        ≡ to_face face (answers_of K.cmp K.matching g.now id interest.now) g.now) }
{
    let Some(f) = find_face(g, face) else {
        return Ok(Vec::new(alloc));
    };
    let exprs = answered_expressions(alloc, g, interest, f)?;
    answer_all(alloc, g, face, f, interest.mode(), id, &exprs)
}

// Whether the ask was sent upstream to this face, under this id. It is looked for at a place first.
fn was_sent_as<K: Key>(face: u32, id: InterestId, place: u32, ask: &AskState<K>) -> bool
    ensures { result ≡ was_sent_as face id ask.now }
{
    let pendings = ask.pendings();
    match pendings.get(place as usize) {
        Some(p) if face == p.0 && id == p.1 => true,
        _ => pendings.iter().any(|p| face == p.0 && id == p.1),
    }
}

// Whether a token that the face declares for the interest which was sent to it as `id` answers the
// ask, among whose pendings this may stand at a place.
fn is_answered_at<K: Key>(
    face: u32,
    id: InterestId,
    place: u32,
    expr: &K,
    ask: &AskState<K>,
) -> bool
    ensures { result ≡ is_answered_by K.cmp K.matching face id expr.now ask.now }
{
    was_sent_as(face, id, place, ask) && ask.interest().asks_token(expr) && !ask.was_answered(expr)
}

/// Whether a token that the face declares for the interest which was sent to it as `id` answers the
/// ask.
pub fn is_answered_by<K: Key>(face: u32, id: InterestId, expr: &K, ask: &AskState<K>) -> bool
    ensures { result ≡ is_answered_by K.cmp K.matching face id expr.now ask.now }
{
    is_answered_at(face, id, 0, expr, ask)
}

// Adds the answer of the ask under an id, where the token answers it. `told` has the faces that
// were told the expression, each with the id under which it was.
fn answer_ask<K: Key>(
    alloc: Global,
    f: &FaceState<K>,
    face: u32,
    id: InterestId,
    place: u32,
    expr: &K,
    told: &[(u32, TokenId)],
    under: InterestId,
    ask: &AskState<K>,
    sends: &mut Vec<(u32, Message<K>)>,
) -> Result<(), Memory>
    requires { AreRising told.now }
    ensures { OnOk result (sends.new.items ≡ sends.old.items ++ map (λ m. (f.now.number, m))
        (answer_of K.cmp K.matching face id expr.now told.now f.now (under, ask.now))) }
{
    if is_answered_at(face, id, place, expr, ask) {
        let known = id_in(told, f.number());
        let mode = ask.interest().mode();
        answer_one(alloc, f.number(), f.next(), known, mode, under, expr, sends)?;
    }
    Ok(())
}

// Adds the answers of the asks of one face.
fn answer_to<K: Key>(
    alloc: Global,
    face: u32,
    id: InterestId,
    expr: &K,
    told: &[(u32, TokenId)],
    f: &FaceState<K>,
    sends: &mut Vec<(u32, Message<K>)>,
) -> Result<(), Memory>
    requires { AreRising told.now }
    ensures { OnOk result (sends.new.items ≡ sends.old.items ++ map (λ m. (f.now.number, m))
        (answer_told K.cmp K.matching face id expr.now told.now f.now)) }
{
    for (under, ask) in f.asks().iter() {
        answer_ask(alloc, f, face, id, 0, expr, told, *under, ask, sends)?;
    }
    Ok(())
}

// The answers of all asks, asking each.
fn answer_each<K: Key>(
    alloc: Global,
    g: &GatewayState<K>,
    face: u32,
    id: InterestId,
    expr: &K,
) -> Result<Vec<(u32, Message<K>)>, Memory>
    ensures { IfOk result (λ sends. sends.items
        ≡ answer K.cmp K.matching face id expr.now g.now) }
{
    let told = g.told_at(expr);
    let mut sends = Vec::new(alloc);
    for f in g.faces() {
        answer_to(alloc, face, id, expr, told, f, &mut sends)?;
    }
    Ok(sends)
}

// The answer of the one ask that was sent so, of a face under an id.
fn answer_asker<K: Key>(
    alloc: Global,
    g: &GatewayState<K>,
    face: u32,
    id: InterestId,
    expr: &K,
    asker: u32,
    under: InterestId,
    place: u32,
) -> Result<Vec<(u32, Message<K>)>, Memory>
    requires rising { IsRising (λ f. f.number) g.now.faces }
    requires asker { IsAskerOf (One asker under place) face id g.now.faces }
    ensures { IfOk result (λ sends. sends.items
        ≡ answer K.cmp K.matching face id expr.now g.now) }
{
    let told = g.told_at(expr);
    let mut sends = Vec::new(alloc);
    let Some(f) = find_face(g, asker) else {
        return Ok(sends);
    };
    let Some(ask) = f.asks().at(under) else {
        return Ok(sends);
    };
    answer_ask(
        alloc, f, face, id, place, expr, told, under, ask, &mut sends,
    )?;
    Ok(sends)
}

/// A token that the face declares for the interest which was sent to it as `id` answers the asks
/// that were sent so.
pub fn answer<K: Key>(
    alloc: Global,
    g: &GatewayState<K>,
    face: u32,
    id: InterestId,
    expr: &K,
) -> Result<Vec<(u32, Message<K>)>, Memory>
    ensures { IfOk result (λ sends. sends.items
        ≡ answer K.cmp K.matching face id expr.now g.now) }
{
    match g.asker(face, id) {
        Asker::Nobody => Ok(Vec::new(alloc)),
        Asker::One {
            face: asker,
            id: under,
            place,
        } => answer_asker(alloc, g, face, id, expr, asker, under, place),
        Asker::Several => answer_each(alloc, g, face, id, expr),
    }
}

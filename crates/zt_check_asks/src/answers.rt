// Asks are answered what they ask for.
ghost use Rattle.std.specs.Prelude.{◌≡◌, ◌&&◌, ◌||◌, not, IfOk, Some};
ghost use Rattle.std.specs.List.{list_all};
ghost use Rattle.std.specs.Option.{option_copied};
ghost use Rattle.zt_model.specs.Lists.{is_among, same};
ghost use Rattle.zt_model.specs.Seen.{is_seen, sees};
ghost use Rattle.zt_model.specs.Wants.{is_about};
ghost use Rattle.zt_check_asks.specs.Answering.{answered_there, are_all, are_answered_at};
ghost use Rattle.zt_check_asks.specs.Answering.{are_answered_by, are_answered_for};
ghost use Rattle.zt_check_asks.specs.Answering.{are_answered_of, are_answered_under};
ghost use Rattle.zt_check_asks.specs.Answering.{are_of_face, are_of_faces, are_seen};
ghost use Rattle.zt_check_asks.specs.Answering.{asks_are_answered, is_answered, is_answered_at_once};
ghost use Rattle.zt_check_asks.specs.Answering.{is_answered_at, is_answered_later};
ghost use Rattle.zt_check_asks.specs.Answering.{is_answered_newly, is_answered_so, is_answered_under};
ghost use Rattle.zt_check_asks.specs.Answering.{is_again, is_nothing, is_of_router};
ghost use Rattle.zt_check_asks.specs.Answering.{made_is_answered};
ghost use Rattle.zt_check_asks.specs.Answering.{pending_is_answered};

use crate::asks::{answers_in, was_sent_as};
use crate::calls::{Told, declared_for, is_made};
use crate::gathered::{Answers, gather};
use std::alloc::Global;
use zt_check_fabric::{ShownFabric, ShownPlace};
use zt_check_faces::{ShownAsk, ShownFace, is_among};
use zt_check_keeping::{has_tokens, is_about, is_seen, sees};
use zt_check_rows::{ShownRouted, ShownRows, TokenTest};
use zt_keys::{Key, Memory};
use zt_protocol::{Message, Sent};
use zt_region::Region;

// Whether an expression is asked for, and seen from the region.
fn is_due<K: Key>(rows: &ShownRows<K>, own: Region, asked: &Option<K>, expr: &K) -> bool
    ensures { result
        ≡ (is_about K.matching asked.now expr.now && is_seen K.cmp rows.now own expr.now) }
{
    is_about(asked, expr) && is_seen(rows, own, expr)
}

// Whether all are.
fn are_seen<K: Key>(rows: &ShownRows<K>, own: Region, asked: &Option<K>, exprs: &[K]) -> bool
    ensures { result ≡ are_seen K.cmp K.matching rows.now own asked.now exprs.now }
{
    for expr in exprs {
        if !is_due(rows, own, asked, expr) {
            return false;
        }
    }
    true
}

// Whether an expression is among these, if it is asked for.
fn is_there<K: Key>(asked: &Option<K>, answers: &Answers<K>, expr: &K) -> bool
    ensures { result
        ≡ (not (is_about K.matching asked.now expr.now) || is_among K.cmp expr.now answers.now) }
{
    !is_about(asked, expr) || answers.holds(expr)
}

// Whether all tokens of a face that are asked for are among these.
fn are_of_face<K: Key>(asked: &Option<K>, answers: &Answers<K>, live: &[(u32, K)]) -> bool
    ensures { result ≡ are_of_face K.cmp K.matching asked.now answers.now live.now }
{
    for row in live {
        if !is_there(asked, answers, &row.1) {
            return false;
        }
    }
    true
}

// Whether that is so of a face that is seen from the region.
fn is_of_face<K: Key>(
    own: Region,
    asked: &Option<K>,
    answers: &Answers<K>,
    source: &ShownFace<K>,
) -> bool
    ensures { result ≡ (not (sees own source.now.region)
        || are_of_face K.cmp K.matching asked.now answers.now source.now.live) }
{
    !sees(own, source.region()) || are_of_face(asked, answers, source.live())
}

// Whether all of faces that is seen from a region and asked for is among these.
fn are_of_faces<K: Key>(
    own: Region,
    asked: &Option<K>,
    answers: &Answers<K>,
    faces: &[ShownFace<K>],
) -> bool
    ensures { result ≡ are_of_faces K.cmp K.matching own asked.now answers.now faces.now }
{
    for source in faces {
        if !is_of_face(own, asked, answers, source) {
            return false;
        }
    }
    true
}

// A token that is seen from a region isn't among the answers.
#[derive(Drop)]
struct IsMissing<'r, K: Key> {
    own: Region,
    answers: &'r Answers<K>,
}

impl<'r, K: Key> TokenTest<K> for IsMissing<'r, K> {
    ghost use Rattle.zt_check_asks.specs.Answering.{is_missing};

    ghost passes = { λ t source e. is_missing K.cmp K.matching t.own t.answers.now source e };

    fn passes(&self, source: &ShownFace<K>, expr: &K) -> bool {
        sees(self.own, source.region()) && !self.answers.holds(expr)
    }
}

// Whether all of a gateway's faces that is seen from a region and asked for is among these. Where a
// key is asked for, tokens are looked up.
fn are_of_sources<K: Key>(
    rows: &ShownRows<K>,
    own: Region,
    asked: &Option<K>,
    answers: &Answers<K>,
) -> bool
    ensures { result ≡ are_of_faces K.cmp K.matching own asked.now answers.now rows.now.faces }
{
    match asked {
        None => are_of_faces(own, asked, answers, rows.faces()),
        Some(key) => !rows.any_near(key, &IsMissing { own, answers }),
    }
}

// Whether a router's token is among these, where it is seen and asked for.
fn is_of_router<K: Key>(
    rows: &ShownRows<K>,
    own: Region,
    asked: &Option<K>,
    answers: &Answers<K>,
    row: &ShownRouted<K>,
) -> bool
    ensures { result
        ≡ is_of_router K.cmp K.matching rows.now own asked.now answers.now row.now }
{
    row.source() == rows.zid() || !sees(own, row.region()) || is_there(asked, answers, row.expr())
}

// Whether all of these rows' tokens are.
fn are_of_routers<K: Key>(
    rows: &ShownRows<K>,
    own: Region,
    asked: &Option<K>,
    answers: &Answers<K>,
    routed: &[ShownRouted<K>],
) -> bool
    ensures { result ≡ list_all
        (is_of_router K.cmp K.matching rows.now own asked.now answers.now) routed.now }
{
    for row in routed {
        if !is_of_router(rows, own, asked, answers, row) {
            return false;
        }
    }
    true
}

// Whether all that is seen from a region and asked for is among these.
fn are_all<K: Key>(
    rows: &ShownRows<K>,
    own: Region,
    asked: &Option<K>,
    answers: &Answers<K>,
) -> bool
    ensures { result ≡ are_all K.cmp K.matching rows.now own asked.now answers.now }
{
    are_of_sources(rows, own, asked, answers)
        && are_of_routers(rows, own, asked, answers, rows.routed())
}

// An ask that is made is answered exactly what is seen and asked for.
fn is_answered_at_once<K: Key>(
    rows: &ShownRows<K>,
    face: &ShownFace<K>,
    ask: &ShownAsk<K>,
    answers: &Answers<K>,
) -> bool
    ensures { result
        ≡ is_answered_at_once K.cmp K.matching rows.now face.now ask.now answers.now }
{
    let asked = ask.interest().expr();
    are_seen(rows, face.region(), asked, answers.exprs())
        && are_all(rows, face.region(), asked, answers)
}

// Whether all are this expression.
fn are_only<K: Key>(expr: &K, answers: &[K]) -> bool
    ensures { result ≡ list_all (same K.cmp expr.now) answers.now }
{
    for answer in answers {
        if *expr != *answer {
            return false;
        }
    }
    true
}

fn is_nothing<K: Key>(answers: &[K]) -> bool
    ensures { result ≡ is_nothing answers.now }
{
    answers.is_empty()
}

// An ask that stood is answered only what is declared under one of its pendings, and that it is, if
// it asks for it.
fn is_answered_later<K: Key>(ask: &ShownAsk<K>, declared: Option<&K>, answers: &[K]) -> bool
    ensures { result
        ≡ is_answered_later K.cmp K.matching ask.now (option_copied declared.entry) answers.now }
{
    let Some(expr) = declared else {
        return is_nothing(answers);
    };
    are_only(expr, answers)
        && (!is_about(ask.interest().expr(), expr)
            || is_among(expr, ask.answered())
            || is_among(expr, answers))
}

// Whether an ask is answered what it asks for, by its answers of the turn, which are new.
fn is_answered_newly<'b, K: Key>(
    told: &Told<'b, K>,
    gateway: u32,
    rows: &ShownRows<K>,
    face: &ShownFace<K>,
    id: u32,
    ask: &ShownAsk<K>,
    answers: &Answers<K>,
) -> bool
    ensures { result ≡ is_answered_newly K.cmp K.matching told.now gateway rows.now face.now id
        ask.now answers.now }
{
    if is_made(told, gateway, face.number(), id) {
        return is_answered_at_once(rows, face, ask, answers);
    }
    is_answered_later(ask, declared_for(told, gateway, ask), answers.exprs())
}

// Whether an ask is answered what it asks for, by its answers of the turn.
fn is_answered_so<'b, K: Key>(
    alloc: Global,
    told: &Told<'b, K>,
    gateway: u32,
    rows: &ShownRows<K>,
    face: &ShownFace<K>,
    id: u32,
    ask: &ShownAsk<K>,
    answers: Vec<K>,
) -> Result<bool, Memory>
    ensures { IfOk result (λ holds. holds ≡ is_answered_so K.cmp K.matching told.now gateway
        rows.now face.now id ask.now answers.items) }
{
    match gather(alloc, ask.answered(), answers)? {
        None => Ok(false),
        Some(answers) => Ok(is_answered_newly(told, gateway, rows, face, id, ask, &answers)),
    }
}

// Whether an ask is answered what it asks for.
fn is_answered<'a, 'b, K: Key>(
    alloc: Global,
    fabric: &ShownFabric<'a, K>,
    told: &Told<'b, K>,
    gateway: u32,
    rows: &ShownRows<K>,
    face: &ShownFace<K>,
    row: &(u32, ShownAsk<K>),
) -> Result<bool, Memory>
    ensures { IfOk result (λ holds. holds
        ≡ is_answered K.cmp K.matching fabric.now told.now gateway rows.now face.now row.now) }
{
    if !has_tokens(row.1.interest()) {
        return Ok(true);
    }
    let number = fabric.number_of_place(gateway, face.number());
    let answers = answers_in(alloc, told.sents(), number, row.0)?;
    is_answered_so(alloc, told, gateway, rows, face, row.0, &row.1, answers)
}

// Whether an ask is, if it is of this id.
fn is_answered_at<'a, 'b, K: Key>(
    alloc: Global,
    fabric: &ShownFabric<'a, K>,
    told: &Told<'b, K>,
    gateway: u32,
    rows: &ShownRows<K>,
    face: &ShownFace<K>,
    id: u32,
    row: &(u32, ShownAsk<K>),
) -> Result<bool, Memory>
    ensures { IfOk result (λ holds. holds ≡ is_answered_at K.cmp K.matching
        fabric.now told.now gateway rows.now face.now id row.now) }
{
    if id != row.0 {
        return Ok(true);
    }
    is_answered(alloc, fabric, told, gateway, rows, face, row)
}

// Whether a face's asks of an id are.
fn are_answered_among<'a, 'b, K: Key>(
    alloc: Global,
    fabric: &ShownFabric<'a, K>,
    told: &Told<'b, K>,
    gateway: u32,
    rows: &ShownRows<K>,
    face: &ShownFace<K>,
    id: u32,
) -> Result<bool, Memory>
    ensures { IfOk result (λ hold. hold ≡ list_all (is_answered_at K.cmp K.matching
        fabric.now told.now gateway rows.now face.now id) face.now.asks) }
{
    for row in face.asks_of(id) {
        if !is_answered_at(alloc, fabric, told, gateway, rows, face, id, row)? {
            return Ok(false);
        }
    }
    Ok(true)
}

// Whether a face's asks of an id are, if the face is of this number.
fn are_answered_of<'a, 'b, K: Key>(
    alloc: Global,
    fabric: &ShownFabric<'a, K>,
    told: &Told<'b, K>,
    gateway: u32,
    rows: &ShownRows<K>,
    number: u32,
    id: u32,
    face: &ShownFace<K>,
) -> Result<bool, Memory>
    ensures { IfOk result (λ hold. hold ≡ are_answered_of K.cmp K.matching
        fabric.now told.now gateway rows.now number id face.now) }
{
    if number != face.number() {
        return Ok(true);
    }
    are_answered_among(alloc, fabric, told, gateway, rows, face, id)
}

// Whether those of an id of a gateway's face are.
fn are_answered_in<'a, 'b, K: Key>(
    alloc: Global,
    fabric: &ShownFabric<'a, K>,
    told: &Told<'b, K>,
    gateway: u32,
    rows: &ShownRows<K>,
    number: u32,
    id: u32,
) -> Result<bool, Memory>
    ensures { IfOk result (λ hold. hold ≡ list_all (are_answered_of K.cmp K.matching
        fabric.now told.now gateway rows.now number id) rows.now.faces) }
{
    for face in rows.faces_of(number) {
        if !are_answered_of(alloc, fabric, told, gateway, rows, number, id, face)? {
            return Ok(false);
        }
    }
    Ok(true)
}

// Whether the asks of an id of a face are.
fn are_answered_at<'a, 'b, K: Key>(
    alloc: Global,
    fabric: &ShownFabric<'a, K>,
    told: &Told<'b, K>,
    gateway: u32,
    face: u32,
    id: u32,
) -> Result<bool, Memory>
    ensures { IfOk result (λ hold. hold ≡ are_answered_at K.cmp K.matching
        fabric.now told.now gateway face id) }
{
    match fabric.node(gateway) {
        None => Ok(true),
        Some(node) => are_answered_in(alloc, fabric, told, gateway, node.rows(), face, id),
    }
}

// Whether the asks are that a message for a place answers.
fn are_answered_for<'a, 'b, K: Key>(
    alloc: Global,
    fabric: &ShownFabric<'a, K>,
    told: &Told<'b, K>,
    message: &Message<K>,
    place: &ShownPlace,
) -> Result<bool, Memory>
    ensures { IfOk result (λ hold. hold ≡ are_answered_for K.cmp K.matching
        fabric.now told.now message.now (Some place.now)) }
{
    match message {
        Message::DeclareToken {
            interest_id: Some(id),
            ..
        } => are_answered_at(alloc, fabric, told, place.gateway(), place.face(), *id),
        _ => Ok(true),
    }
}

// Whether the asks are that a message answers.
fn are_answered_by<'a, 'b, K: Key>(
    alloc: Global,
    fabric: &ShownFabric<'a, K>,
    told: &Told<'b, K>,
    sent: &Sent<K>,
) -> Result<bool, Memory>
    ensures { IfOk result (λ hold. hold ≡ are_answered_by K.cmp K.matching
        fabric.now told.now sent.now) }
{
    match fabric.place(sent.face) {
        None => Ok(true),
        Some(place) => are_answered_for(alloc, fabric, told, &sent.message, place),
    }
}

// The face and the interest that a token answers.
fn answered_there<K: Key>(message: &Message<K>, face: u32) -> Option<(u32, u32)>
    ensures { result ≡ answered_there message.now face }
{
    match message {
        Message::DeclareToken {
            interest_id: Some(id),
            ..
        } => Some((face, *id)),
        _ => None,
    }
}

// Whether the one before is answered again.
fn is_again(last: Option<(u32, u32)>, here: Option<(u32, u32)>) -> bool
    ensures { result ≡ is_again last here }
{
    match (last, here) {
        (Some(last), Some(here)) => last.0 == here.0 && last.1 == here.1,
        _ => false,
    }
}

// Whether the asks are that a message answers, where it isn't for those that the message before it
// answered.
fn are_answered_next<'a, 'b, K: Key>(
    alloc: Global,
    fabric: &ShownFabric<'a, K>,
    told: &Told<'b, K>,
    last: Option<(u32, u32)>,
    here: Option<(u32, u32)>,
    sent: &Sent<K>,
) -> Result<bool, Memory>
    ensures { IfOk result (λ hold. hold ≡ (is_again last here || are_answered_by K.cmp K.matching
        fabric.now told.now sent.now)) }
{
    if is_again(last, here) {
        return Ok(true);
    }
    are_answered_by(alloc, fabric, told, sent)
}

// Whether the asks are that messages answer.
fn are_answered_by_all<'a, 'b, K: Key>(
    alloc: Global,
    fabric: &ShownFabric<'a, K>,
    told: &Told<'b, K>,
    sents: &[Sent<K>],
) -> Result<bool, Memory>
    ensures { IfOk result (λ hold. hold ≡ list_all (are_answered_by K.cmp K.matching
        fabric.now told.now) sents.now) }
{
    let mut last = None;
    for sent in sents {
        let here = answered_there(&sent.message, sent.face);
        if !are_answered_next(alloc, fabric, told, last, here, sent)? {
            return Ok(false);
        }
        last = here;
    }
    Ok(true)
}

// Whether an ask is, if it was sent upstream as the pending.
fn is_answered_under<'a, 'b, K: Key>(
    alloc: Global,
    fabric: &ShownFabric<'a, K>,
    told: &Told<'b, K>,
    pending: (u32, u32, u32),
    rows: &ShownRows<K>,
    face: &ShownFace<K>,
    row: &(u32, ShownAsk<K>),
) -> Result<bool, Memory>
    ensures { IfOk result (λ holds. holds ≡ is_answered_under K.cmp K.matching
        fabric.now told.now pending rows.now face.now row.now) }
{
    if !was_sent_as(&row.1, pending.1, pending.2) {
        return Ok(true);
    }
    is_answered(alloc, fabric, told, pending.0, rows, face, row)
}

// Whether those of these asks of a face are that were sent upstream as the pending.
fn all_answered_under<'a, 'b, K: Key>(
    alloc: Global,
    fabric: &ShownFabric<'a, K>,
    told: &Told<'b, K>,
    pending: (u32, u32, u32),
    rows: &ShownRows<K>,
    face: &ShownFace<K>,
    asks: &[(u32, ShownAsk<K>)],
) -> Result<bool, Memory>
    ensures { IfOk result (λ hold. hold ≡ list_all (is_answered_under K.cmp K.matching
        fabric.now told.now pending rows.now face.now) asks.now) }
{
    for row in asks {
        if !is_answered_under(alloc, fabric, told, pending, rows, face, row)? {
            return Ok(false);
        }
    }
    Ok(true)
}

// Whether the asks of a face are.
fn are_answered_under<'a, 'b, K: Key>(
    alloc: Global,
    fabric: &ShownFabric<'a, K>,
    told: &Told<'b, K>,
    pending: (u32, u32, u32),
    rows: &ShownRows<K>,
    face: &ShownFace<K>,
) -> Result<bool, Memory>
    ensures { IfOk result (λ hold. hold ≡ are_answered_under K.cmp K.matching
        fabric.now told.now pending rows.now face.now) }
{
    all_answered_under(alloc, fabric, told, pending, rows, face, face.asks())
}

// Whether the asks of a gateway are.
fn are_answered_below<'a, 'b, K: Key>(
    alloc: Global,
    fabric: &ShownFabric<'a, K>,
    told: &Told<'b, K>,
    pending: (u32, u32, u32),
    rows: &ShownRows<K>,
) -> Result<bool, Memory>
    ensures { IfOk result (λ hold. hold ≡ list_all (are_answered_under K.cmp K.matching
        fabric.now told.now pending rows.now) rows.now.faces) }
{
    for face in rows.faces() {
        if !are_answered_under(alloc, fabric, told, pending, rows, face)? {
            return Ok(false);
        }
    }
    Ok(true)
}

// Whether the ask is that the turn makes.
fn made_is_answered<'a, 'b, K: Key>(
    alloc: Global,
    fabric: &ShownFabric<'a, K>,
    told: &Told<'b, K>,
) -> Result<bool, Memory>
    ensures { IfOk result (λ holds. holds ≡ made_is_answered K.cmp K.matching
        fabric.now told.now told.now.asking) }
{
    match told.asking() {
        None => Ok(true),
        Some(asking) => are_answered_at(alloc, fabric, told, asking.0, asking.1, asking.2),
    }
}

// Whether the asks are that were sent upstream as the pending that a token answers.
fn pending_is_answered<'a, 'b, K: Key>(
    alloc: Global,
    fabric: &ShownFabric<'a, K>,
    told: &Told<'b, K>,
) -> Result<bool, Memory>
    ensures { IfOk result (λ hold. hold ≡ pending_is_answered K.cmp K.matching
        fabric.now told.now told.now.pending) }
{
    let Some(pending) = told.pending() else {
        return Ok(true);
    };
    match fabric.node(pending.0) {
        None => Ok(true),
        Some(node) => are_answered_below(alloc, fabric, told, pending, node.rows()),
    }
}

/// Asks are answered what they ask for: it is looked at for each that the line makes, that its
/// messages answer, or that its token answers. The fabric is that with what the line itself
/// changes, and doesn't hear its messages yet. The only error is an allocation that fails.
pub fn answers_asks<'a, 'b, K: Key>(
    alloc: Global,
    fabric: &ShownFabric<'a, K>,
    told: &Told<'b, K>,
) -> Result<bool, Memory>
    ensures { IfOk result
        (λ hold. hold ≡ asks_are_answered K.cmp K.matching fabric.now told.now) }
{
    if !are_answered_by_all(alloc, fabric, told, told.sents())? {
        return Ok(false);
    }
    if !made_is_answered(alloc, fabric, told)? {
        return Ok(false);
    }
    pending_is_answered(alloc, fabric, told)
}
